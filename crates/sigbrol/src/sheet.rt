// The sheet of cover counts.
ghost use Rattle.std.specs.Prelude.{◌≡◌, length};
ghost use Rattle.model.specs.Buffer.{placement};
ghost use Rattle.model.specs.Calls.{fresh_call, lay_call, withdraw_call, counts_after};
ghost use Rattle.sheet_refusals.specs.Causes.{sheet_of};
ghost use Rattle.c_interface.specs.Numbers.{lent_as, piece_with_turn};
ghost use Rattle.c_interface.specs.Records.{record_in, record_after};
ghost use Rattle.c_interface.specs.Replies.{reply_to};

use c_interface::record::{read_record, write_record};
use c_interface::{Reply, done, piece_with_turn, placement_of, refused, size_of};
use model::{PIECE_BOUND, PieceEntry};

// A fresh sheet: nothing is laid and all counts are 0.
#[unsafe(no_mangle)]
pub extern "C" fn sigbrol_fresh(
    rows: usize,
    columns: usize,
    count: usize,
    gap: usize,
    table: &[PieceEntry],
    pixels: &[u8],
    entries: &mut [[u16; 4]; PIECE_BOUND],
    counts: &mut [u8],
) -> Reply
    ensures answer { result ≡ reply_to (fresh_call (lent_as rows columns count gap table.now pixels.now) (length counts.old)) }
    ensures laid { entries.new ≡ record_after entries.old (fresh_call (lent_as rows columns count gap table.now pixels.now) (length counts.old)) }
    ensures pixels { counts.new ≡ counts_after counts.old (fresh_call (lent_as rows columns count gap table.now pixels.now) (length counts.old)) }
{
    let answer = sheet_calls::fresh(size_of(rows, columns, count, gap), table, pixels, counts);
    let reply = answer.reply;
    match reply {
        Ok(()) => {
            write_record(entries, answer.sheet);
            done()
        }
        Err(refusal) => refused(refusal),
    }
}

// Lays a piece.
#[unsafe(no_mangle)]
pub extern "C" fn sigbrol_lay(
    rows: usize,
    columns: usize,
    count: usize,
    gap: usize,
    table: &[PieceEntry],
    pixels: &[u8],
    entries: &mut [[u16; 4]; PIECE_BOUND],
    counts: &mut [u8],
    piece: usize,
    turn: u16,
    x: u16,
    y: u16,
) -> Reply
    ensures answer { result ≡ reply_to (lay_call (lent_as rows columns count gap table.now pixels.now) (sheet_of (record_in entries.old) counts.old) (piece_with_turn turn piece) (placement turn x y)) }
    ensures laid { entries.new ≡ record_after entries.old (lay_call (lent_as rows columns count gap table.now pixels.now) (sheet_of (record_in entries.old) counts.old) (piece_with_turn turn piece) (placement turn x y)) }
    ensures pixels { counts.new ≡ counts_after counts.old (lay_call (lent_as rows columns count gap table.now pixels.now) (sheet_of (record_in entries.old) counts.old) (piece_with_turn turn piece) (placement turn x y)) }
{
    let answer = sheet_calls::lay(
        size_of(rows, columns, count, gap),
        table,
        pixels,
        read_record(entries),
        counts,
        piece_with_turn(turn, piece),
        placement_of(turn, x, y),
    );
    let reply = answer.reply;
    match reply {
        Ok(()) => {
            write_record(entries, answer.sheet);
            done()
        }
        Err(refusal) => refused(refusal),
    }
}

// Withdraws a piece.
#[unsafe(no_mangle)]
pub extern "C" fn sigbrol_withdraw(
    rows: usize,
    columns: usize,
    count: usize,
    gap: usize,
    table: &[PieceEntry],
    pixels: &[u8],
    entries: &mut [[u16; 4]; PIECE_BOUND],
    counts: &mut [u8],
    piece: usize,
) -> Reply
    ensures answer { result ≡ reply_to (withdraw_call (lent_as rows columns count gap table.now pixels.now) (sheet_of (record_in entries.old) counts.old) piece) }
    ensures laid { entries.new ≡ record_after entries.old (withdraw_call (lent_as rows columns count gap table.now pixels.now) (sheet_of (record_in entries.old) counts.old) piece) }
    ensures pixels { counts.new ≡ counts_after counts.old (withdraw_call (lent_as rows columns count gap table.now pixels.now) (sheet_of (record_in entries.old) counts.old) piece) }
{
    let sheet = read_record(entries);
    let answer = sheet_calls::withdraw(
        size_of(rows, columns, count, gap),
        table,
        pixels,
        sheet,
        counts,
        piece,
    );
    let reply = answer.reply;
    match reply {
        Ok(()) => {
            write_record(entries, answer.sheet);
            done()
        }
        Err(refusal) => refused(refusal),
    }
}
