// The first pair of a layout that conflicts by the job's gap: lowest first number, then lowest second.
ghost use Rattle.std.specs.Prelude.{◌≡◌, ◌<◌, ◌≤◌, length};
ghost use Rattle.model.specs.Piece.{gap_bound};
ghost use Rattle.model.specs.Layout.{pair_conflicts, conflicting_pair};
ghost use Rattle.model.specs.Lent.{lent_by, job_of};
ghost use Rattle.model.specs.Buffer.{layout_of};
ghost use Rattle.model.specs.declared.Direction.TheVariants.{Horizontal};
ghost use Rattle.model.specs.declared.JobSize.{JobSize};
ghost use Rattle.layout_strips.specs.Kept.{Drawable, Kept};
ghost use Rattle.layout_sum_calls.specs.Answers.{conflicting_answer};
ghost use Rattle.layout_sum_calls.specs.Conflicting.{RowFirst};

use layout_strips::{StripSpan, conflicts_of, empty_store, no_spans};
use model::{JobSize, PieceEntry, PlaceEntry, StripEntry};

// The first piece above i that conflicts with it, or the number of pieces where none does.
fn conflicting_in_row(
    table: &[PieceEntry],
    pixels: &[u8],
    layout: &[PlaceEntry],
    i: usize,
    gap: u32,
    rows: &mut [StripEntry],
    row_spans: &mut [StripSpan],
) -> usize
    requires fact_1 { Drawable table.now layout.now }
    requires fact_2 { i < length layout.now }
    requires fact_3 { Kept Horizontal table.now pixels.now layout.now rows.old row_spans.old }
    requires fact_4 { gap ≤ gap_bound }
    ensures first { (size : JobSize) → size.gap ≡ gap → RowFirst (pair_conflicts (job_of (lent_by size table.now pixels.now)) (layout_of layout.now)) (length layout.now) i result }
    ensures kept { Kept Horizontal table.now pixels.now layout.now rows.new row_spans.new }
{
    for k in i + 1..layout.len() {
        if conflicts_of(table, pixels, layout, i, k, gap, rows, row_spans) {
            return k;
        }
    }
    layout.len()
}

// The first pair that conflicts, with the strips of the pieces in a lent store.
fn first_conflicting(
    table: &[PieceEntry],
    pixels: &[u8],
    layout: &[PlaceEntry],
    gap: u32,
    rows: &mut [StripEntry],
    row_spans: &mut [StripSpan],
) -> Option<(u32, u32)>
    requires fact_1 { Drawable table.now layout.now }
    requires fact_2 { Kept Horizontal table.now pixels.now layout.now rows.old row_spans.old }
    requires fact_3 { gap ≤ gap_bound }
    ensures { (size : JobSize) → size.gap ≡ gap → size.count ≡ length layout.now → result ≡ conflicting_answer (conflicting_pair (job_of (lent_by size table.now pixels.now)) (layout_of layout.now)) }
{
    for i in 0..layout.len() {
        let k = conflicting_in_row(table, pixels, layout, i, gap, rows, row_spans);
        if k < layout.len() {
            return Some((i as u32, k as u32));
        }
    }
    None
}

// The first pair of a layout that conflicts.
pub fn conflicting_pair(
    size: JobSize,
    table: &[PieceEntry],
    pixels: &[u8],
    layout: &[PlaceEntry],
) -> Option<(u32, u32)>
    requires fact_1 { Drawable table.now layout.now }
    requires fact_2 { size.gap ≤ gap_bound }
    ensures { size.count ≡ length layout.now → result ≡ conflicting_answer (conflicting_pair (job_of (lent_by size table.now pixels.now)) (layout_of layout.now)) }
{
    let gap = size.gap as u32;
    let mut rows = empty_store();
    let mut row_spans = no_spans();
    first_conflicting(table, pixels, layout, gap, &mut rows, &mut row_spans)
}
