// The table of pair penalties, which sums are taken from and a descent keeps: 64 x 64 entries, that of pieces i and k at i * 64 + k and at
// k * 64 + i. What lies on the diagonal plays no part. The number of pieces is the layout's length.
#![tactic(auto)]

ghost use Rattle.std.specs.Prelude.{◌≡◌, ◌+◌, ◌<◌, ◌≤◌, length};
ghost use Rattle.model.specs.Piece.{gap_bound};
ghost use Rattle.model.specs.Lent.{lent_by, job_of};
ghost use Rattle.model.specs.Buffer.{layout_of};
ghost use Rattle.model.specs.declared.Direction.TheVariants.{Horizontal, Vertical};
ghost use Rattle.model.specs.declared.JobSize.{JobSize};
ghost use Rattle.search_laws.specs.Table.{PenaltyTable};
ghost use Rattle.layout_strips.specs.Kept.{Drawable, Kept};

use layout_strips::{StripSpan, empty_store, no_spans, penalty_of};
use model::{JobSize, PIECE_BOUND, PieceEntry, PlaceEntry, StripEntry};

// The entries of the table: one for each two piece numbers.
pub const TABLE_LENGTH: usize = PIECE_BOUND * PIECE_BOUND;

// Adds piece i to the table of those below it: makes its entries with each of them.
fn add_piece(
    table: &[PieceEntry],
    pixels: &[u8],
    layout: &[PlaceEntry],
    i: usize,
    gap: u32,
    rows: &mut [StripEntry],
    row_spans: &mut [StripSpan],
    columns: &mut [StripEntry],
    column_spans: &mut [StripSpan],
    penalties: &mut [u8],
)
    requires fact_1 { Drawable table.now layout.now }
    requires fact_2 { (i < length layout.now) × (gap ≤ gap_bound) }
    requires fact_3 { Kept Horizontal table.now pixels.now layout.now rows.old row_spans.old }
    requires fact_4 { Kept Vertical table.now pixels.now layout.now columns.old column_spans.old }
    requires fact_5 { length penalties.old ≡ 4096 }
    ensures table { (size : JobSize) → size.gap ≡ gap → PenaltyTable (job_of (lent_by size table.now pixels.now)) (layout_of layout.now) i penalties.old → PenaltyTable (job_of (lent_by size table.now pixels.now)) (layout_of layout.now) (i + 1) penalties.new }
    ensures rows { Kept Horizontal table.now pixels.now layout.now rows.new row_spans.new }
    ensures columns { Kept Vertical table.now pixels.now layout.now columns.new column_spans.new }
{
    for k in 0..i {
        let p = penalty_of(
            table,
            pixels,
            layout,
            i,
            k,
            gap,
            rows,
            row_spans,
            columns,
            column_spans,
        ) as u8;
        penalties[i * PIECE_BOUND + k] = p;
        penalties[k * PIECE_BOUND + i] = p;
    }
}

// Makes the whole table of a layout, with the strips of its pieces in lent stores.
fn fill_table(
    table: &[PieceEntry],
    pixels: &[u8],
    layout: &[PlaceEntry],
    gap: u32,
    rows: &mut [StripEntry],
    row_spans: &mut [StripSpan],
    columns: &mut [StripEntry],
    column_spans: &mut [StripSpan],
    penalties: &mut [u8],
)
    requires fact_1 { Drawable table.now layout.now }
    requires fact_2 { Kept Horizontal table.now pixels.now layout.now rows.old row_spans.old }
    requires fact_3 { Kept Vertical table.now pixels.now layout.now columns.old column_spans.old }
    requires fact_4 { length penalties.old ≡ 4096 }
    requires fact_5 { gap ≤ gap_bound }
    ensures { (size : JobSize) → size.gap ≡ gap → size.count ≡ length layout.now → PenaltyTable (job_of (lent_by size table.now pixels.now)) (layout_of layout.now) size.count penalties.new }
{
    for i in 0..layout.len() {
        add_piece(
            table,
            pixels,
            layout,
            i,
            gap,
            rows,
            row_spans,
            columns,
            column_spans,
            penalties,
        );
    }
}

// The table of a layout, by the job's gap.
pub fn penalties_of(
    size: JobSize,
    table: &[PieceEntry],
    pixels: &[u8],
    layout: &[PlaceEntry],
) -> [u8; TABLE_LENGTH]
    requires fact_1 { Drawable table.now layout.now }
    requires fact_2 { size.gap ≤ gap_bound }
    ensures { size.count ≡ length layout.now → PenaltyTable (job_of (lent_by size table.now pixels.now)) (layout_of layout.now) size.count result }
{
    let gap = size.gap as u32;
    let mut rows = empty_store();
    let mut row_spans = no_spans();
    let mut columns = empty_store();
    let mut column_spans = no_spans();
    let mut penalties = [0u8; TABLE_LENGTH];
    fill_table(
        table,
        pixels,
        layout,
        gap,
        &mut rows,
        &mut row_spans,
        &mut columns,
        &mut column_spans,
        &mut penalties,
    );
    penalties
}
