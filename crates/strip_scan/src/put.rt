// Strips put into a lent store. What there is no room for is counted and left out, so that one function counts and writes.

ghost use Rattle.std.specs.Prelude.{◌≡◌, [], ◌∷◌, ◌<◌, ◌≤◌, ◌^◌, set};
ghost use Rattle.model.specs.Strip.{strips};
ghost use Rattle.model.specs.Lent.{lent_by, job_of};
ghost use Rattle.model.specs.Layout.{turned_piece};
ghost use Rattle.model.specs.declared.JobSize.{JobSize};
ghost use Rattle.job_laws.specs.Entries.{EntryAt};
ghost use Rattle.piece_pixels.specs.Turned.{shown_by, SmallPiece};
ghost use Rattle.strip_scan.specs.Put.{Appended};

use super::scan::next_strip;
use model::{Direction, PieceEntry, StripEntry, Turn};
use piece_pixels::{TurnedPiece, turned_piece};

// Stores a strip, where there is room for it.
fn put(store: &mut [StripEntry], at: usize, line: usize, first: usize, count: usize)
    requires { (line ≤ 255) × ((first ≤ 255) × (count ≤ 255)) }
    ensures { store.new ≡ set store.old at (line ∷ first ∷ count ∷ []) }
{
    if at < store.len() {
        store[at] = [line as u8, first as u8, count as u8];
    }
}

// Puts the strips of a turned piece into the store from `at` on, and tells where the next strip would stand.
pub fn put_strips(
    pixels: &[u8],
    piece: TurnedPiece,
    direction: Direction,
    store: &mut [StripEntry],
    at: usize,
) -> usize
    requires { SmallPiece piece × (at ≤ 2 ^ 32) }
    ensures { Appended (strips direction (shown_by pixels.now piece)) store.old at store.new result }
{
    let mut at = at;
    let mut line = 0;
    let mut along = 0;
    while let Some(found) = next_strip(pixels, piece, direction, line, along) {
        put(store, at, found.line, found.first, found.count);
        at += 1;
        line = found.line;
        along = found.first + found.count;
    }
    at
}

// Puts the strips of a job's piece in a turn into the store from `at` on, and tells where the next strip would stand. The
// piece's pixels begin at `start`.
pub fn put_piece(
    table: &[PieceEntry],
    pixels: &[u8],
    piece: usize,
    start: usize,
    turn: Turn,
    direction: Direction,
    store: &mut [StripEntry],
    at: usize,
) -> usize
    requires { EntryAt table.now piece start × (at ≤ 2 ^ 32) }
    ensures { (size : JobSize) → Appended (strips direction (turned_piece (job_of (lent_by size table.now pixels.now)) piece turn)) store.old at store.new result }
{
    put_strips(
        pixels,
        turned_piece(table, piece, start, turn),
        direction,
        store,
        at,
    )
}
