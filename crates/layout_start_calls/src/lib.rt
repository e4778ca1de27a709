// The start layout: the pieces by falling length, stacked from the left. Document 01, 'Start, layout text, sheet'; document 02, point 6: locked pieces
// stay where they are given, and the entries of free ones are not read.
#![tactic(auto)]

ghost use Rattle.std.specs.Prelude.{◌≡◌, List, ℕ, length};
ghost use Rattle.model.specs.Answers.{done_answer};
ghost use Rattle.model.specs.Lent.{lent_by, job_of};
ghost use Rattle.model.specs.Start.{falling_order, free_only, empty_stack, start, start_of_all};
ghost use Rattle.model.specs.Buffer.{entries_of, layout_of};
ghost use Rattle.model.specs.Calls.{layout_after, start_call};
ghost use Rattle.descent_laws.specs.Start.{StartClaims};
ghost use Rattle.layout_places.specs.Fitting.{Fitting};
ghost use Rattle.layout_start_calls.specs.Stacks.{stack_entries};

mod order;
mod stack;

use causes::locked::start_causes;
use model::{JobSize, PIECE_BOUND, PieceEntry, PlaceEntry, Refusal};

// Writes the start layout of all pieces, whatever is locked.
pub fn start_of_all(size: JobSize, table: &[PieceEntry], layout: &mut [PlaceEntry])
    requires { Fitting size table.now × (length layout.old ≡ size.count) }
    ensures { (pixels : List ℕ) → layout.new ≡ entries_of (start_of_all (job_of (lent_by size table.now pixels))) }
{
    let order = order::falling_order(size, table);
    stack::stack_all(size, table, &order, size.count, layout);
}

// Stacks the free pieces over their entries; those of locked pieces stay.
fn stack_free(size: JobSize, table: &[PieceEntry], layout: &mut [PlaceEntry])
    requires { Fitting size table.now × (length layout.old ≡ size.count) }
    ensures { (pixels : List ℕ) → layout.new ≡ stack_entries (job_of (lent_by size table.now pixels)) (free_only (job_of (lent_by size table.now pixels)) (falling_order (job_of (lent_by size table.now pixels)) size.count)) empty_stack layout.old }
{
    let order = order::falling_order(size, table);
    let mut free = [0usize; PIECE_BOUND];
    let count = order::free_only(size, table, &order, &mut free);
    stack::stack_all(size, table, &free, count, layout);
}

// The start layout, with the locked placements of the layout buffer, or its refusal.
pub fn start(
    size: JobSize,
    table: &[PieceEntry],
    pixels: &[u8],
    layout: &mut [PlaceEntry],
) -> Result<(), Refusal>
    ensures answer { result ≡ done_answer (start_call (lent_by size table.now pixels.now) layout.old) }
    ensures memory { layout.new ≡ layout_after layout.old (start_call (lent_by size table.now pixels.now) layout.old) }
    ensures layout { result ≡ Ok tt → StartClaims (job_of (lent_by size table.now pixels.now)) (layout_of layout.old) (layout_of layout.new) }
{
    start_causes(size, table, pixels, layout)?;
    stack_free(size, table, layout);
    Ok(())
}
