// Strips of a job's pieces, and pieces rebuilt from them.
ghost use Rattle.std.specs.Prelude.{◌≡◌, ◌<◌, length};
ghost use Rattle.model.specs.Calls.{leaving, strips_call, stores_after, stretch_call, stretch_given, stretch_number, rebuild_call, pixels_after};
ghost use Rattle.strip_rebuild_calls.specs.Again.{Again};
ghost use Rattle.strip_calls.specs.Stores.{stores_by};
ghost use Rattle.model.specs.Buffer.{direction_of};
ghost use Rattle.c_interface.specs.Numbers.{lent_as};
ghost use Rattle.c_interface.specs.Replies.{reply_to};
ghost use Rattle.sigbrol.specs.Places.{start_in, stretch_start};

use c_interface::{Reply, direction_of, done, refused, size_of};
use model::{PieceEntry, StripEntry};

// Fills the row store and the column store of a job in given turns, each with its starts.
#[unsafe(no_mangle)]
pub extern "C" fn sigbrol_strips(
    rows: usize,
    columns: usize,
    count: usize,
    gap: usize,
    table: &[PieceEntry],
    pixels: &[u8],
    turns: &[u16],
    row_strips: &mut [StripEntry],
    row_starts: &mut [u32],
    column_strips: &mut [StripEntry],
    column_starts: &mut [u32],
) -> Reply
    ensures answer { result ≡ reply_to (strips_call (lent_as rows columns count gap table.now pixels.now) turns.now (stores_by row_strips.old row_starts.old column_strips.old column_starts.old)) }
    ensures memory { stores_by row_strips.new row_starts.new column_strips.new column_starts.new ≡ stores_after (stores_by row_strips.old row_starts.old column_strips.old column_starts.old) (strips_call (lent_as rows columns count gap table.now pixels.now) turns.now (stores_by row_strips.old row_starts.old column_strips.old column_starts.old)) }
{
    let size = size_of(rows, columns, count, gap);
    match strip_calls::strips(
        size,
        table,
        pixels,
        turns,
        row_strips,
        row_starts,
        column_strips,
        column_starts,
    ) {
        Ok(()) => done(),
        Err(refusal) => refused(refusal),
    }
}

// Where the stretch of a piece begins.
fn start_of(row_starts: &[u32], column_starts: &[u32], piece: usize, vertical: u8) -> usize
    requires { (piece < length row_starts.now) × (piece < length column_starts.now) }
    ensures { result ≡ start_in (direction_of vertical) row_starts.now column_starts.now piece }
{
    if vertical == 0 {
        row_starts[piece] as usize
    } else {
        column_starts[piece] as usize
    }
}

// How many strips the stretch of a piece has, 0 where it is refused, and where it begins in the row store, or in the column store if vertical.
// A reference cannot be handed to C, so the stretch is told by its place. The stores share a lifetime, since the stretch is a part of either.
#[unsafe(no_mangle)]
pub extern "C" fn sigbrol_stretch<'a>(
    rows: usize,
    columns: usize,
    count: usize,
    gap: usize,
    table: &[PieceEntry],
    pixels: &[u8],
    turns: &[u16],
    row_strips: &'a [StripEntry],
    row_starts: &[u32],
    column_strips: &'a [StripEntry],
    column_starts: &[u32],
    piece: usize,
    vertical: u8,
    first: &mut usize,
) -> usize
    ensures answer { result ≡ length (stretch_given (stretch_call (lent_as rows columns count gap table.now pixels.now) turns.now (stores_by row_strips.now row_starts.now column_strips.now column_starts.now) piece (direction_of vertical))) }
    ensures place { first.new ≡ leaving (λ a. stretch_start (direction_of vertical) (stores_by row_strips.now row_starts.now column_strips.now column_starts.now) piece) first.old (stretch_call (lent_as rows columns count gap table.now pixels.now) turns.now (stores_by row_strips.now row_starts.now column_strips.now column_starts.now) piece (direction_of vertical)) }
{
    let size = size_of(rows, columns, count, gap);
    let direction = direction_of(vertical);
    let strips = strip_calls::stretch::stretch(
        size,
        table,
        pixels,
        turns,
        row_strips,
        row_starts,
        column_strips,
        column_starts,
        piece,
        direction,
    );
    let length = strips.len();
    let given = length != 0;
    if given {
        *first = start_of(row_starts, column_starts, piece, vertical);
    }
    length
}

// The number by which the stretch of a piece is refused, 0 where it is given.
#[unsafe(no_mangle)]
pub extern "C" fn sigbrol_stretch_refusal(
    rows: usize,
    columns: usize,
    count: usize,
    gap: usize,
    table: &[PieceEntry],
    pixels: &[u8],
    turns: &[u16],
    row_strips: &[StripEntry],
    row_starts: &[u32],
    column_strips: &[StripEntry],
    column_starts: &[u32],
    piece: usize,
    vertical: u8,
) -> u32
    ensures answer { result ≡ stretch_number (stretch_call (lent_as rows columns count gap table.now pixels.now) turns.now (stores_by row_strips.now row_starts.now column_strips.now column_starts.now) piece (direction_of vertical)) }
{
    let size = size_of(rows, columns, count, gap);
    let direction = direction_of(vertical);
    strip_calls::stretch::stretch_refusal(
        size,
        table,
        pixels,
        turns,
        row_strips,
        row_starts,
        column_strips,
        column_starts,
        piece,
        direction,
    ) as u32
}

// Writes the pixel bytes of the one set in the box that has just these strips.
#[unsafe(no_mangle)]
pub extern "C" fn sigbrol_rebuild(
    rows: u16,
    columns: u16,
    vertical: u8,
    strips: &[StripEntry],
    pixels: &mut [u8],
) -> Reply
    ensures answer { result ≡ reply_to (rebuild_call (direction_of vertical) columns rows strips.now (length pixels.old)) }
    ensures memory { pixels.new ≡ pixels_after pixels.old (rebuild_call (direction_of vertical) columns rows strips.now (length pixels.old)) }
    ensures again { Again (direction_of vertical) columns rows strips.now pixels.old pixels.new }
{
    match strip_rebuild_calls::rebuild(columns, rows, direction_of(vertical), strips, pixels) {
        Ok(()) => done(),
        Err(refusal) => refused(refusal),
    }
}
