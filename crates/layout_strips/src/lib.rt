// The strips of the pieces of a layout, in the turns that it gives them, made when they are first asked for, and what is measured of two pieces
// by them and a gap. Document 01, 'No-fit rows and penalty', and document 02, point 4. Each piece has a part of a store to itself, an entry for
// each pixel of its box, so that it does not matter which pieces are asked for, or in what order.
#![tactic(auto)]

mod boxes;

ghost use Rattle.std.specs.Prelude.{◌≡◌, ◌≢◌, ℕ, ◌-◌, ◌<◌, ◌≤◌, min, length, take, drop};
ghost use Rattle.model.specs.Piece.{gap_bound};
ghost use Rattle.model.specs.Overlap.{conflict_depth};
ghost use Rattle.model.specs.Layout.{corner_in, pair_of, pair_conflicts};
ghost use Rattle.model.specs.Lent.{lent_by, job_of, area_bound};
ghost use Rattle.model.specs.Buffer.{layout_of};
ghost use Rattle.model.specs.declared.Direction.TheVariants.{Horizontal, Vertical};
ghost use Rattle.model.specs.declared.JobSize.{JobSize};
ghost use Rattle.search_laws.specs.PieceSum.{penalty_between};
ghost use Rattle.layout_strips.specs.Kept.{Drawable, drawn_shape, span_start, span_end, span_made, Kept, NoneMade};

use boxes::boxes_meet;
use job_check::pixel_start;
use layout_places::place_at;
use model::{AREA_BOUND, Direction, PIECE_BOUND, PieceEntry, PlaceEntry, StripEntry};
use pair_measure::corner_along;
use strip_scan::put::put_piece;

// Where the strips of a piece begin in a store and where they end, and 1 once they are made.
pub type StripSpan = [usize; 3];

// A store with a part for every piece of a job. What it holds plays no part, so that no caller's proof computes with it.
pub fn empty_store() -> [StripEntry; AREA_BOUND]
    ensures { length result ≡ area_bound }
{
    [[0u8; 3]; AREA_BOUND]
}

// No strips are made yet.
pub fn no_spans() -> [StripSpan; PIECE_BOUND]
    ensures { NoneMade result }
{
    [[0; 3]; PIECE_BOUND]
}

// Makes the strips of a piece along a direction, unless they are made.
pub fn draw(
    table: &[PieceEntry],
    pixels: &[u8],
    layout: &[PlaceEntry],
    i: usize,
    direction: Direction,
    store: &mut [StripEntry],
    spans: &mut [StripSpan],
)
    requires fact_1 { Drawable table.now layout.now }
    requires fact_2 { i < length layout.now }
    requires fact_3 { Kept direction table.now pixels.now layout.now store.old spans.old }
    ensures kept { Kept direction table.now pixels.now layout.now store.new spans.new }
    ensures made { (span_made spans.new i ≢ 0) × ((m : ℕ) → span_made spans.old m ≢ 0 → span_made spans.new m ≢ 0) }
{
    let made = spans[i][2] != 0;
    if made {
        return;
    }
    let turn = place_at(layout, i).turn;
    let start = pixel_start(table, i);
    let end = put_piece(table, pixels, i, start, turn, direction, store, start);
    spans[i] = [start, end, 1];
}

// The strips of a piece that are made: a part of the store.
pub fn strips_of<'a>(store: &'a [StripEntry], spans: &[StripSpan], i: usize) -> &'a [StripEntry]
    requires fact_1 { i < length spans.now }
    requires fact_2 { (span_start spans.now i ≤ span_end spans.now i) × (span_end spans.now i ≤ length store.now) }
    ensures { result.now ≡ take (span_end spans.now i - span_start spans.now i) (drop (span_start spans.now i) store.now) }
{
    let from = spans[i][0];
    let to = spans[i][1];
    &store[from..to]
}

// The depth of two pieces of a layout along a direction by a gap, cut off at a bound.
fn depth_of(
    table: &[PieceEntry],
    pixels: &[u8],
    layout: &[PlaceEntry],
    i: usize,
    k: usize,
    direction: Direction,
    gap: u32,
    bound: u32,
    store: &mut [StripEntry],
    spans: &mut [StripSpan],
) -> u32
    requires fact_1 { Drawable table.now layout.now }
    requires fact_2 { (i < length layout.now) × (k < length layout.now) }
    requires fact_3 { (gap ≤ gap_bound) × (bound ≤ 264) }
    requires fact_4 { Kept direction table.now pixels.now layout.now store.old spans.old }
    ensures depth { (size : JobSize) → result ≡ min (conflict_depth gap direction (drawn_shape size table.now pixels.now layout.now i) (corner_in (layout_of layout.now) i) (drawn_shape size table.now pixels.now layout.now k) (corner_in (layout_of layout.now) k)) bound }
    ensures kept { Kept direction table.now pixels.now layout.now store.new spans.new }
{
    draw(table, pixels, layout, i, direction, store, spans);
    draw(table, pixels, layout, k, direction, store, spans);
    let u = corner_along(place_at(layout, i), direction);
    let v = corner_along(place_at(layout, k), direction);
    let strips = &store[..];
    let made = &spans[..];
    pair_overlap::depth_below(
        strips_of(strips, made, i),
        u,
        strips_of(strips, made, k),
        v,
        gap,
        bound,
    )
}

// Whether two pieces of a layout conflict by a gap: the walk over their strips ends at the first two that do. No strips are made for boxes farther
// apart.
pub fn conflicts_of(
    table: &[PieceEntry],
    pixels: &[u8],
    layout: &[PlaceEntry],
    i: usize,
    k: usize,
    gap: u32,
    rows: &mut [StripEntry],
    row_spans: &mut [StripSpan],
) -> bool
    requires fact_1 { Drawable table.now layout.now }
    requires fact_2 { (i < length layout.now) × (k < length layout.now) }
    requires fact_3 { Kept Horizontal table.now pixels.now layout.now rows.old row_spans.old }
    requires fact_4 { gap ≤ gap_bound }
    ensures conflicts { (size : JobSize) → size.gap ≡ gap → result ≡ pair_conflicts (job_of (lent_by size table.now pixels.now)) (layout_of layout.now) (pair_of i k) }
    ensures kept { Kept Horizontal table.now pixels.now layout.now rows.new row_spans.new }
{
    if !boxes_meet(table, layout, i, k, gap) {
        return false;
    }
    depth_of(
        table,
        pixels,
        layout,
        i,
        k,
        Direction::Horizontal,
        gap,
        1,
        rows,
        row_spans,
    ) == 1
}

// The penalty of two pieces of a layout by a gap: the lesser depth. No strips are made for boxes farther apart; the depth along the columns is cut
// off at the one along the rows, and not asked for, nor are column strips made, where that is 0. The penalty of two different pieces fits a byte,
// since their boxes are not both long and high.
pub fn penalty_of(
    table: &[PieceEntry],
    pixels: &[u8],
    layout: &[PlaceEntry],
    i: usize,
    k: usize,
    gap: u32,
    rows: &mut [StripEntry],
    row_spans: &mut [StripSpan],
    columns: &mut [StripEntry],
    column_spans: &mut [StripSpan],
) -> u32
    requires fact_1 { Drawable table.now layout.now }
    requires fact_2 { (i < length layout.now) × (k < length layout.now) }
    requires fact_3 { Kept Horizontal table.now pixels.now layout.now rows.old row_spans.old }
    requires fact_4 { Kept Vertical table.now pixels.now layout.now columns.old column_spans.old }
    requires fact_5 { gap ≤ gap_bound }
    ensures penalty { (size : JobSize) → size.gap ≡ gap → result ≡ penalty_between (job_of (lent_by size table.now pixels.now)) (layout_of layout.now) i k }
    ensures small { i ≢ k → result ≤ 255 }
    ensures rows { Kept Horizontal table.now pixels.now layout.now rows.new row_spans.new }
    ensures columns { Kept Vertical table.now pixels.now layout.now columns.new column_spans.new }
{
    if !boxes_meet(table, layout, i, k, gap) {
        return 0;
    }
    let along_rows = depth_of(
        table,
        pixels,
        layout,
        i,
        k,
        Direction::Horizontal,
        gap,
        264,
        rows,
        row_spans,
    );
    let apart = along_rows == 0;
    if apart {
        return 0;
    }
    depth_of(
        table,
        pixels,
        layout,
        i,
        k,
        Direction::Vertical,
        gap,
        along_rows,
        columns,
        column_spans,
    )
}
