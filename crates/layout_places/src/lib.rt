// Placements as a layout buffer holds them: turns as degrees, allowed turns and the inside test. Document 01, 'Sheet and panels' and
// 'Start, layout text, sheet'.
#![tactic(auto)]

ghost use Rattle.std.specs.Prelude.{◌≡◌, ◌&&◌, List, ℕ, ◌<◌, ltb, length};
ghost use Rattle.model.specs.Piece.{degrees, turn_bit, allows};
ghost use Rattle.model.specs.Layout.{allowed, inside, place_of};
ghost use Rattle.model.specs.Lent.{lent_by, job_of};
ghost use Rattle.model.specs.Buffer.{turn_of_degrees, turn_of, entry_of, layout_of};
ghost use Rattle.model.specs.Calls.{allowed_degrees};
ghost use Rattle.model.specs.declared.JobSize.{JobSize};
ghost use Rattle.layout_places.specs.Answers.{turn_answer};
ghost use Rattle.layout_places.specs.Boxes.{place_at};

pub mod numbers;

use model::{Column, JobSize, PieceEntry, PlaceEntry, Placement, Row, Turn};
use piece_pixels::turned_sides;
use piece_table::turns_of;

// The turn of so many degrees, if there is one.
pub fn turn_of(degrees: u16) -> Option<Turn>
    ensures { result ≡ turn_answer (turn_of_degrees degrees) }
{
    match degrees {
        0 => Some(Turn::Zero),
        90 => Some(Turn::Quarter),
        180 => Some(Turn::Half),
        270 => Some(Turn::ThreeQuarters),
        _ => None,
    }
}

// The turn of so many degrees, turn 0 where they are those of none.
pub fn turn_or_zero(degrees: u16) -> Turn
    ensures { result ≡ turn_of degrees }
{
    turn_of(degrees).unwrap_or(Turn::Zero)
}

// A turn in degrees, as buffers and texts write it.
pub fn degrees_of(turn: Turn) -> u16
    ensures { result ≡ degrees turn }
{
    match turn {
        Turn::Zero => 0,
        Turn::Quarter => 90,
        Turn::Half => 180,
        Turn::ThreeQuarters => 270,
    }
}

// A turn's part of the sum o of the allowed turns.
fn turn_bit(turn: Turn) -> u8
    ensures { result ≡ turn_bit turn }
{
    match turn {
        Turn::Zero => 1,
        Turn::Quarter => 2,
        Turn::Half => 4,
        Turn::ThreeQuarters => 8,
    }
}

// The sum o of the allowed turns has the turn in it.
pub fn allows(o: u8, turn: Turn) -> bool
    ensures { result ≡ allows o turn }
{
    o / turn_bit(turn) % 2 == 1
}

// The turn is allowed to piece i.
pub fn allowed(table: &[PieceEntry], i: usize, turn: Turn) -> bool
    requires { i < length table.now }
    ensures { (size : JobSize) (pixels : List ℕ) → result ≡ allowed (job_of (lent_by size table.now pixels)) i turn }
{
    allows(turns_of(table, i), turn)
}

// The placement of piece i in a layout buffer.
pub fn place_at(layout: &[PlaceEntry], i: usize) -> Placement
    requires { i < length layout.now }
    ensures { result ≡ place_of (layout_of layout.now) i }
{
    Placement {
        turn: turn_or_zero(layout[i][0]),
        x: Column(layout[i][1]),
        y: Row(layout[i][2]),
    }
}

// A placement as an entry of a layout buffer.
pub fn entry_of(place: Placement) -> PlaceEntry
    ensures { result ≡ entry_of place }
{
    let turn = place.turn;
    [degrees_of(turn), place.x.0, place.y.0]
}

// Copies a layout buffer.
pub fn copy(from: &[PlaceEntry], to: &mut [PlaceEntry])
    requires { length to.old ≡ length from.now }
    ensures { to.new ≡ from.now }
{
    to.copy_from_slice(from);
}

// The box of piece i, turned, with its corner at column x and row y, lies in the sheet.
pub fn inside_at(
    size: JobSize,
    table: &[PieceEntry],
    i: usize,
    turn: Turn,
    x: Column,
    y: Row,
) -> bool
    requires { i < length table.now }
    ensures { (pixels : List ℕ) → result ≡ inside (job_of (lent_by size table.now pixels)) i (place_at turn x.0 y.0) }
{
    let sides = turned_sides(table, i, turn);
    let right = x.0 as usize + sides.columns;
    let top = y.0 as usize + sides.rows;
    right <= size.columns && top <= size.rows
}

// The turned box of piece i lies in the sheet.
pub fn inside(size: JobSize, table: &[PieceEntry], i: usize, place: Placement) -> bool
    requires { i < length table.now }
    ensures { (pixels : List ℕ) → result ≡ inside (job_of (lent_by size table.now pixels)) i place }
{
    let turn = place.turn;
    let x = place.x;
    let y = place.y;
    inside_at(size, table, i, turn, x, y)
}

// The degrees are a turn allowed to piece i.
pub fn allowed_degrees(table: &[PieceEntry], i: usize, degrees: u16) -> bool
    requires { i < length table.now }
    ensures { (size : JobSize) (pixels : List ℕ) → result ≡ allowed_degrees (job_of (lent_by size table.now pixels)) i degrees }
{
    turn_of(degrees).is_some_and(|turn| allowed(table, i, turn))
}

// There is such a piece, and the turn is allowed to it. The table is asked only where it has the entry, so that a call may ask this before
// the job is known to pass its check.
pub fn known(size: JobSize, table: &[PieceEntry], i: usize, turn: Turn) -> bool
    ensures { (pixels : List ℕ) → result ≡ (ltb i size.count && allowed (job_of (lent_by size table.now pixels)) i turn) }
{
    if size.count <= i {
        return false;
    }
    if table.len() <= i {
        return false;
    }
    allowed(table, i, turn)
}
