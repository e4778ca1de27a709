// A piece of a layout slides left along its row or down along its column until it would conflict with another piece, or is at the sheet's edge.
// Document 02, point 7. How far it slides is the least of what the other pieces leave it, told by their strips at once and not pixel by pixel.
#![tactic(auto)]

ghost use Rattle.std.specs.Prelude.{◌≡◌, List, ℕ, ◌-◌, ◌<◌, ◌≤◌, length};
ghost use Rattle.model.specs.Bounded.{first_from};
ghost use Rattle.model.specs.Piece.{along, corner, side_bound};
ghost use Rattle.model.specs.Layout.{shape_in, corner_in};
ghost use Rattle.model.specs.Lent.{lent_by, job_of};
ghost use Rattle.model.specs.Buffer.{layout_of, entries_of};
ghost use Rattle.model.specs.Compact.{slid_to, slide_of, slide};
ghost use Rattle.model.specs.declared.JobSize.{JobSize};
ghost use Rattle.pair_slide.specs.Boxes.{BoxOf};
ghost use Rattle.layout_slides.specs.Slidable.{Slidable, blocked_by};

use layout_places::{entry_of, place_at};
use layout_strips::{StripSpan, strips_of};
use model::{Column, Direction, JobSize, PieceEntry, PlaceEntry, Placement, Row, StripEntry};
use pair_measure::corner_along;
use pair_slide::{PlacedBox, room_before};
use piece_pixels::turned_sides;

// The box of a piece of a layout as a direction sees it.
fn box_at(table: &[PieceEntry], layout: &[PlaceEntry], i: usize, direction: Direction) -> PlacedBox
    requires { (i < length table.now) × (i < length layout.now) }
    ensures shown { (size : JobSize) (pixels : List ℕ) → BoxOf direction (shape_in (job_of (lent_by size table.now pixels)) (layout_of layout.now) i) (corner_in (layout_of layout.now) i) result }
    ensures small { (result.length ≤ side_bound) × (result.lines ≤ side_bound) }
{
    let place = place_at(layout, i);
    let turn = place.turn;
    let corner = corner_along(place, direction);
    let sides = turned_sides(table, i, turn);
    match direction {
        Direction::Horizontal => PlacedBox {
            corner,
            length: sides.columns,
            lines: sides.rows,
        },
        Direction::Vertical => PlacedBox {
            corner,
            length: sides.rows,
            lines: sides.columns,
        },
    }
}

// How far piece i slides towards 0 along a direction before piece k blocks it, if that is below the bound, else the bound. A piece does not block
// itself.
fn room_beside(
    size: JobSize,
    table: &[PieceEntry],
    pixels: &[u8],
    layout: &[PlaceEntry],
    i: usize,
    k: usize,
    direction: Direction,
    bound: u32,
    store: &[StripEntry],
    spans: &[StripSpan],
) -> u32
    requires fact_1 { Slidable direction (lent_by size table.now pixels.now) layout.now store.now spans.now }
    requires fact_2 { (i < size.count) × (k < size.count) }
    requires fact_3 { bound ≤ along direction (corner_in (layout_of layout.now) i) }
    ensures { result ≡ first_from (blocked_by direction (job_of (lent_by size table.now pixels.now)) (layout_of layout.now) i k) 0 bound }
{
    if k == i {
        return bound;
    }
    let mover = box_at(table, layout, i, direction);
    let standing = box_at(table, layout, k, direction);
    room_before(
        strips_of(store, spans, i),
        mover,
        strips_of(store, spans, k),
        standing,
        size.gap as u32,
        bound,
    )
}

// How far piece i slides towards 0 along a direction.
fn slide_room(
    size: JobSize,
    table: &[PieceEntry],
    pixels: &[u8],
    layout: &[PlaceEntry],
    i: usize,
    direction: Direction,
    store: &[StripEntry],
    spans: &[StripSpan],
) -> u32
    requires fact_1 { Slidable direction (lent_by size table.now pixels.now) layout.now store.now spans.now }
    requires fact_2 { i < size.count }
    ensures { result ≡ slide_of direction (job_of (lent_by size table.now pixels.now)) i (layout_of layout.now) }
{
    let corner = corner_along(place_at(layout, i), direction);
    let mut room = corner.along;
    for k in 0..layout.len() {
        room = room_beside(
            size, table, pixels, layout, i, k, direction, room, store, spans,
        );
    }
    room
}

// A placement moved towards 0 along a direction.
fn moved_back(place: Placement, direction: Direction, pixels: u32) -> Placement
    requires { pixels ≤ along direction (corner place) }
    ensures { result ≡ slid_to direction place (along direction (corner place) - pixels) }
{
    let turn = place.turn;
    let x = place.x;
    let y = place.y;
    match direction {
        Direction::Horizontal => Placement {
            turn,
            x: Column(x.0 - pixels as u16),
            y,
        },
        Direction::Vertical => Placement {
            turn,
            x,
            y: Row(y.0 - pixels as u16),
        },
    }
}

// Piece i slides towards 0 along a direction as far as it goes, and the answer tells the pixels.
pub fn slide(
    size: JobSize,
    table: &[PieceEntry],
    pixels: &[u8],
    layout: &mut [PlaceEntry],
    i: usize,
    direction: Direction,
    store: &[StripEntry],
    spans: &[StripSpan],
) -> u32
    requires fact_1 { Slidable direction (lent_by size table.now pixels.now) layout.old store.now spans.now }
    requires fact_2 { i < size.count }
    requires fact_3 { entries_of (layout_of layout.old) ≡ layout.old }
    ensures slid { result ≡ (slide direction (job_of (lent_by size table.now pixels.now)) i (layout_of layout.old)).slid }
    ensures layout { layout.new ≡ entries_of (slide direction (job_of (lent_by size table.now pixels.now)) i (layout_of layout.old)).layout }
{
    let room = slide_room(size, table, pixels, layout, i, direction, store, spans);
    let place = place_at(layout, i);
    layout[i] = entry_of(moved_back(place, direction, room));
    room
}
