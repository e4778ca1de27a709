// A whole descent: trial after trial until an end is reached. Document 01, 'Descent and guidance'.
#![tactic(auto)]

ghost use Rattle.std.specs.Prelude.{◌≡◌, ◌≤◌};
ghost use Rattle.model.specs.Lent.{lent_by, job_of};
ghost use Rattle.model.specs.Buffer.{layout_of};
ghost use Rattle.model.specs.Descent.{descend};
ghost use Rattle.model.specs.Calls.{budget_bound};
ghost use Rattle.descent_laws.specs.Claims.{ValidWeights};
ghost use Rattle.run_trials.specs.Trials.{TrialList};
ghost use Rattle.search_beside.specs.Ready.{LinesReady};
ghost use Rattle.run_step.specs.Ready.{LaidOut};
ghost use Rattle.run_descent.specs.Descents.{starting_at, descent_of};

use model::{End, PieceEntry, PlaceEntry, StripEntry};
use run_step::{DescentState, step};
use search_lines::RunSize;
use search_sums::total;

// How a descent ended: the end, the weighted sum, trials made and moves. Its layout stands in the layout buffer.
#[derive(Clone, Copy)]
pub struct Ended {
    pub end: End,
    pub sum: u64,
    pub made: u32,
    pub moves: u32,
}

// What a descent gives that ends where it stands.
fn end_at(end: End, at: DescentState) -> Ended
    ensures { result ≡ record { end = end; sum = at.sum; made = at.made; moves = at.moves } }
{
    Ended {
        end: end,
        sum: at.sum,
        made: at.made,
        moves: at.moves,
    }
}

// The beginning of a descent: nothing counted, the first place.
fn beginning(sum: u64) -> DescentState
    ensures { result ≡ starting_at sum }
{
    DescentState {
        sum: sum,
        quiet: 0,
        made: 0,
        moves: 0,
        next: 0,
    }
}

// The descent over the lent trials from the layout in the buffer, which holds the layout at the end after it. Before each trial: sum zero,
// clear; else quiet count T, settled; else budget used up, spent. So where there is no trial none is read.
pub fn descend(
    run: RunSize,
    table: &[PieceEntry],
    pixels: &[u8],
    strips: &[StripEntry],
    starts: &[u32],
    trials: &[u16],
    weights: &[u32],
    budget: u32,
    layout: &mut [PlaceEntry],
    penalties: &mut [u8],
    lines: &mut [u8],
    maps: &mut [u64],
) -> Ended
    requires fact_1 { LinesReady (lent_by run.size table.now pixels.now) run strips.now starts.now lines.old maps.old }
    requires fact_2 { ValidWeights (job_of (lent_by run.size table.now pixels.now)) weights.now }
    requires fact_3 { LaidOut (lent_by run.size table.now pixels.now) layout.old penalties.old }
    requires fact_4 { budget ≤ budget_bound }
    requires fact_5 { TrialList (job_of (lent_by run.size table.now pixels.now)) trials.now }
    ensures result { descend (job_of (lent_by run.size table.now pixels.now)) weights.now budget (layout_of layout.old) ≡ descent_of result (layout_of layout.new) }
    ensures laid { LaidOut (lent_by run.size table.now pixels.now) layout.new penalties.new }
    ensures ready { LinesReady (lent_by run.size table.now pixels.now) run strips.now starts.now lines.new maps.new }
{
    let pieces = run.size.count;
    let count = trials.len();
    let mut at = beginning(total(penalties, weights, pieces));
    loop {
        if at.sum == 0 {
            return end_at(End::Clear, at);
        }
        let settled = at.quiet == count;
        if settled {
            return end_at(End::Settled, at);
        }
        let spent = at.made == budget;
        if spent {
            return end_at(End::Spent, at);
        }
        at = step(
            run, table, pixels, strips, starts, trials, weights, at, layout, penalties, lines, maps,
        );
    }
}
