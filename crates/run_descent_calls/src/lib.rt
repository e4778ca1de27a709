// Descent: trials taken one after the other until nothing overlaps, nothing helps or the budget is used up. Document 01, 'Descent and
// guidance'.
#![tactic(auto)]

ghost use Rattle.std.specs.Prelude.{◌≡◌, ◌≤◌, length};
ghost use Rattle.model.specs.Lent.{lent_by, job_of};
ghost use Rattle.model.specs.Buffer.{layout_of};
ghost use Rattle.model.specs.Calls.{budget_bound, descent_call, descent_after};
ghost use Rattle.descent_laws.specs.Claims.{DescentClaims};
ghost use Rattle.call_laws.specs.Workspaces.{LeftFree};
ghost use Rattle.run_descent.specs.Descents.{descent_of};
ghost use Rattle.run_descent.specs.declared.Ended.{Ended};
ghost use Rattle.run_memory.specs.Ready.{Given};
ghost use Rattle.run_memory.specs.Done.{Descended};
ghost use Rattle.run_descent_calls.specs.Answers.{descent_answer};

use causes::weighted_causes;
use layout_entries::write_entries;
use model::{BUDGET_BOUND, JobSize, PAIR_BOUND, PieceEntry, PlaceEntry, Refusal};
use run_descent::Ended;
use run_memory::memory::{Alone, with_strips};

// Copies weights.
fn copy_weights(from: &[u32], to: &mut [u32])
    requires { length to.old ≡ length from.now }
    ensures { to.new ≡ from.now }
{
    to.copy_from_slice(from);
}

// The descent, over weights of its own: a run's memory takes weights that may be raised.
fn run_alone(
    size: JobSize,
    table: &[PieceEntry],
    pixels: &[u8],
    weights: &[u32],
    budget: u32,
    layout: &mut [PlaceEntry],
    workspace: &mut [u64],
) -> Ended
    requires fact_1 { Given (lent_by size table.now pixels.now) layout.old weights.now }
    requires fact_2 { budget ≤ budget_bound }
    ensures { Descended (lent_by size table.now pixels.now) layout.old weights.now budget result layout.new }
{
    let mut own = [0u32; PAIR_BOUND];
    let n = weights.len();
    copy_weights(weights, &mut own[..n]);
    with_strips(
        size,
        table,
        pixels,
        Alone { budget },
        layout,
        &mut own[..n],
        workspace,
    )
}

// The descent: 8, 7, 2, 9, 10. The layout buffer holds the layout at the end; a refusal writes nothing. The answer does not depend on the workspace,
// whose words are free after it.
pub fn descent(
    size: JobSize,
    table: &[PieceEntry],
    pixels: &[u8],
    layout: &mut [PlaceEntry],
    weights: &[u32],
    budget: u32,
    workspace: &mut [u64],
) -> Result<Ended, Refusal>
    ensures answer { result ≡ descent_answer (descent_call (lent_by size table.now pixels.now) layout.old weights.now budget) }
    ensures memory { layout.new ≡ descent_after layout.old (descent_call (lent_by size table.now pixels.now) layout.old weights.now budget) }
    ensures workspace { LeftFree (descent_call (lent_by size table.now pixels.now) layout.old weights.now budget) workspace.old workspace.new }
    ensures demand3 { (e : Ended) → result ≡ Ok e → DescentClaims (job_of (lent_by size table.now pixels.now)) weights.now budget (layout_of layout.old) (descent_of e (layout_of layout.new)) }
{
    let above = BUDGET_BOUND < budget;
    weighted_causes(size, table, pixels, layout, weights, above, false)?;
    write_entries(layout);
    Ok(run_alone(size, table, pixels, weights, budget, layout, workspace))
}
