// Strips compared with those in a lent store, one by one and without a copy.

ghost use Rattle.std.specs.Prelude.{◌≡◌, [], ◌∷◌, ◌≤◌, ◌^◌, get_or};
ghost use Rattle.model.specs.Strip.{strips};
ghost use Rattle.model.specs.Buffer.{same_numbers};
ghost use Rattle.model.specs.Lent.{lent_by, job_of};
ghost use Rattle.model.specs.Layout.{turned_piece};
ghost use Rattle.model.specs.declared.JobSize.{JobSize};
ghost use Rattle.job_laws.specs.Entries.{EntryAt};
ghost use Rattle.piece_pixels.specs.Turned.{shown_by, SmallPiece};
ghost use Rattle.strip_scan.specs.Compare.{compared};

use super::scan::next_strip;
use model::{Direction, PieceEntry, StripEntry, Turn};
use piece_pixels::{TurnedPiece, turned_piece};

// An entry has just the three numbers.
fn same_entry(entry: StripEntry, line: usize, first: usize, count: usize) -> bool
    ensures { result ≡ same_numbers entry (line ∷ first ∷ count ∷ []) }
{
    if entry[0] as usize != line {
        return false;
    }
    if entry[1] as usize != first {
        return false;
    }
    entry[2] as usize == count
}

// The store has just the three numbers at a place.
fn stands_at(store: &[StripEntry], at: usize, line: usize, first: usize, count: usize) -> bool
    ensures { result ≡ same_numbers (get_or store.now at []) (line ∷ first ∷ count ∷ []) }
{
    if at < store.len() {
        return same_entry(store[at], line, first, count);
    }
    false
}

// The place up to which the strips of a turned piece stand in the store from `at` on, if they do.
pub fn compare_strips(
    pixels: &[u8],
    piece: TurnedPiece,
    direction: Direction,
    store: &[StripEntry],
    at: usize,
) -> Option<usize>
    requires { SmallPiece piece × (at ≤ 2 ^ 32) }
    ensures { result ≡ compared (strips direction (shown_by pixels.now piece)) store.now at }
{
    let mut at = at;
    let mut line = 0;
    let mut along = 0;
    while let Some(found) = next_strip(pixels, piece, direction, line, along) {
        if !stands_at(store, at, found.line, found.first, found.count) {
            return None;
        }
        at += 1;
        line = found.line;
        along = found.first + found.count;
    }
    Some(at)
}

// The place up to which the strips of a job's piece in a turn stand in the store from `at` on, if they do. The piece's pixels begin at
// `start`.
pub fn compare_piece(
    table: &[PieceEntry],
    pixels: &[u8],
    piece: usize,
    start: usize,
    turn: Turn,
    direction: Direction,
    store: &[StripEntry],
    at: usize,
) -> Option<usize>
    requires { EntryAt table.now piece start × (at ≤ 2 ^ 32) }
    ensures { (size : JobSize) → result ≡ compared (strips direction (turned_piece (job_of (lent_by size table.now pixels.now)) piece turn)) store.now at }
{
    compare_strips(
        pixels,
        turned_piece(table, piece, start, turn),
        direction,
        store,
        at,
    )
}
