// The guided run: rounds of descent with weights raised in between. Document 01, 'Descent and guidance' and 'When a call says no'.
#![tactic(auto)]

ghost use Rattle.std.specs.Prelude.{◌≡◌};
ghost use Rattle.model.specs.Guided as model;
ghost use Rattle.model.specs.Lent.{lent_by, job_of};
ghost use Rattle.model.specs.Buffer.{layout_of};
ghost use Rattle.model.specs.Calls.{guided_call, best_after_run, weights_after_run};
ghost use Rattle.descent_laws.specs.Claims.{GuidedClaims};
ghost use Rattle.call_laws.specs.Workspaces.{LeftFree};
ghost use Rattle.search_laws.specs.Results.{guided_of};
ghost use Rattle.run_rounds.specs.Rounds.{InRange, Ran};
ghost use Rattle.run_memory.specs.Ready.{Given};
ghost use Rattle.run_guided_calls.specs.Answers.{tally_of, guided_answer, numbers_wrong};

use causes::weighted_causes;
use layout_entries::write_entries;
use model::{BUDGET_BOUND, JobSize, PieceEntry, PlaceEntry, ROUND_BOUND, Refusal};
use run_memory::memory::with_strips;
use run_rounds::Terms;

// What a guided run comes to beside the best layout and the new weights: the best layout's plain sum, and the trials and moves of all
// rounds.
#[derive(Clone, Copy)]
pub struct RunTotals {
    pub sum: u64,
    pub made: u64,
    pub moves: u64,
}

// Whether the budget or the round count is out of range.
fn numbers_wrong(rounds: u32, budget: u32) -> bool
    ensures { result ≡ numbers_wrong rounds budget }
{
    if BUDGET_BOUND < budget {
        return true;
    }
    if rounds == 0 {
        return true;
    }
    ROUND_BOUND < rounds
}

// The rounds, in a run's memory.
fn run_rounds(
    size: JobSize,
    table: &[PieceEntry],
    pixels: &[u8],
    terms: Terms,
    layout: &mut [PlaceEntry],
    weights: &mut [u32],
    workspace: &mut [u64],
) -> RunTotals
    requires fact_1 { Given (lent_by size table.now pixels.now) layout.old weights.old }
    requires fact_2 { InRange terms }
    ensures { Ran (lent_by size table.now pixels.now) layout.old weights.old terms.count terms.budget (tally_of result) layout.new weights.new }
{
    let told = with_strips(size, table, pixels, terms, layout, weights, workspace);
    RunTotals {
        sum: told.sum,
        made: told.made,
        moves: told.moves,
    }
}

// A guided run of at most so many rounds, each with the budget. The layout buffer holds the best layout after it, the weight buffer the
// new weights; on a refusal nothing is written. The answer does not depend on the workspace, whose words are free after it. Demand 3's claims hold
// of the run and of each of its rounds.
pub fn guided_run(
    size: JobSize,
    table: &[PieceEntry],
    pixels: &[u8],
    layout: &mut [PlaceEntry],
    weights: &mut [u32],
    rounds: u32,
    budget: u32,
    workspace: &mut [u64],
) -> Result<RunTotals, Refusal>
    ensures answer { result ≡ guided_answer (guided_call (lent_by size table.now pixels.now) layout.old weights.old rounds budget) }
    ensures layout { layout.new ≡ best_after_run layout.old (guided_call (lent_by size table.now pixels.now) layout.old weights.old rounds budget) }
    ensures weights { weights.new ≡ weights_after_run weights.old (guided_call (lent_by size table.now pixels.now) layout.old weights.old rounds budget) }
    ensures workspace { LeftFree (guided_call (lent_by size table.now pixels.now) layout.old weights.old rounds budget) workspace.old workspace.new }
    ensures demand3 { (run : RunTotals) → result ≡ Ok run → GuidedClaims (job_of (lent_by size table.now pixels.now)) weights.old rounds budget (layout_of layout.old) (model.rounds (job_of (lent_by size table.now pixels.now)) rounds budget weights.old (layout_of layout.old)) (guided_of (layout_of layout.new) run.sum weights.new run.made run.moves) }
{
    let wrong = numbers_wrong(rounds, budget);
    weighted_causes(size, table, pixels, layout, weights, wrong, false)?;
    write_entries(layout);
    let terms = Terms {
        count: rounds,
        budget,
    };
    Ok(run_rounds(size, table, pixels, terms, layout, weights, workspace))
}
