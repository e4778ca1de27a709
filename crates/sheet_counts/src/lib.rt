// A piece's pixels added to the counts of a sheet, taken off, or marked as one owner's: row by row of its turned box. It knows no sheet
// record.
#![tactic(auto)]

ghost use Rattle.std.specs.Prelude.{◌≡◌, true, ℕ, ◌+◌, ◌*◌, ◌<◌, ◌≤◌, length, replicate};
ghost use Rattle.model.specs.Lent.{lent_by, job_of, column_bound};
ghost use Rattle.piece_pixels.specs.Turned.{InTurnedBox, PixelStored};
ghost use Rattle.sheet_counts.specs.Stamp.{moved, moved_by, StampRoom, on_at, moved_run, moved_rows};
ghost use Rattle.sheet_counts.specs.Ready.{StampReady};
ghost use Rattle.sheet_counts.specs.declared.Change.TheVariants.{OneMore, OneLess};

use model::{JobSize, PieceEntry, Placement};
use piece_pixels::TurnedPiece;

// The largest count.
const COUNT_BOUND: u8 = 255;

// What becomes of the counts on a piece's pixels: one more where it is laid, one less where it is withdrawn, or the number of an owner.
#[derive(Clone, Copy)]
pub enum Change {
    OneMore,
    OneLess,
    OwnedBy(u8),
}

// One more. At most 64 pieces lie on a pixel, so that the last count of a byte is not reached.
fn one_more(count: u8) -> u8
    ensures { result ≡ moved OneMore true count }
{
    if count < COUNT_BOUND {
        return count + 1;
    }
    count
}

// One less. A laid piece counts on each of its pixels, so that there is one to take off.
fn one_less(count: u8) -> u8
    ensures { result ≡ moved OneLess true count }
{
    if 0 < count {
        return count - 1;
    }
    0
}

// The count of a pixel, which the piece covers or not, after the change.
fn moved_count(count: u8, on: bool, change: Change) -> u8
    ensures { result ≡ moved change on count }
{
    let off = !on;
    if off {
        return count;
    }
    match change {
        Change::OneMore => one_more(count),
        Change::OneLess => one_less(count),
        Change::OwnedBy(owner) => owner,
    }
}

// One row of the turned piece, from the count with number `from` on.
fn move_row(
    pixels: &[u8],
    piece: TurnedPiece,
    y: usize,
    from: usize,
    width: usize,
    change: Change,
    counts: &mut [u8],
)
    requires { PixelStored pixels.now piece × ((x : ℕ) → x < width → InTurnedBox piece x y) × (from + width ≤ length counts.old) }
    ensures { counts.new ≡ moved_run change (on_at pixels.now piece y) from counts.old 0 width }
{
    for x in 0..width {
        let on = piece_pixels::stored_pixel(pixels, piece, x, y);
        let at = from + x;
        counts[at] = moved_count(counts[at], on, change);
    }
}

// The turned piece's rows, the first from the count with number `first` on, each `sheet` counts after the last.
fn move_rows(
    pixels: &[u8],
    piece: TurnedPiece,
    first: usize,
    sheet: usize,
    width: usize,
    height: usize,
    change: Change,
    counts: &mut [u8],
)
    requires { PixelStored pixels.now piece × StampRoom piece first sheet width height (length counts.old) }
    ensures { counts.new ≡ moved_rows change (on_at pixels.now piece) sheet width counts.old first 0 height }
{
    let mut from = first;
    for y in 0..height {
        move_row(pixels, piece, y, from, width, change, counts);
        from += sheet;
    }
}

// All counts 0.
pub fn clear(counts: &mut [u8])
    ensures { counts.new ≡ replicate (length counts.old) 0 }
{
    counts.fill(0);
}

// The number of the count at a placement's corner.
fn corner_number(sheet: usize, place: Placement) -> usize
    requires { sheet ≤ column_bound }
    ensures { result ≡ place.y.0 * sheet + place.x.0 }
{
    usize::from(place.y.0) * sheet + usize::from(place.x.0)
}

// Piece i at a placement: the count of each pixel that it covers changes.
pub fn move_piece(
    size: JobSize,
    table: &[PieceEntry],
    pixels: &[u8],
    i: usize,
    place: Placement,
    change: Change,
    counts: &mut [u8],
)
    requires { StampReady (lent_by size table.now pixels.now) i place (length counts.old) }
    ensures { counts.new ≡ moved_by change (job_of (lent_by size table.now pixels.now)) i place counts.old }
{
    let turn = place.turn;
    let sides = piece_pixels::turned_sides(table, i, turn);
    let start = job_check::pixel_start(table, i);
    let piece = piece_pixels::turned_piece(table, i, start, turn);
    let first = corner_number(size.columns, place);
    move_rows(
        pixels,
        piece,
        first,
        size.columns,
        sides.columns,
        sides.rows,
        change,
        counts,
    );
}
