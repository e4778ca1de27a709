// Reading a job, and setting a lock in it.
ghost use Rattle.std.specs.Prelude.{[], ◌∷◌, ◌≡◌, length};
ghost use Rattle.model.specs.JobText.{read_job};
ghost use Rattle.model.specs.Calls.{leaving, table_after, store_after, set_lock_call, locked_after};
ghost use Rattle.call_laws.specs.Locks.{lock_call, LocksClaims};
ghost use Rattle.c_interface.specs.Numbers.{lent_as};
ghost use Rattle.c_interface.specs.Replies.{reply_to};

use c_interface::{Reply, done, refused, size_of};
use c_results::put_size;
use model::PieceEntry;

// Reads a job text: the numbers, the table and the pixels are filled.
#[unsafe(no_mangle)]
pub extern "C" fn sigbrol_read_job(
    text: &[u8],
    table: &mut [PieceEntry],
    pixels: &mut [u8],
    rows: &mut usize,
    columns: &mut usize,
    count: &mut usize,
    gap: &mut usize,
) -> Reply
    ensures answer { result ≡ reply_to (read_job text.now (length table.old) (length pixels.old)) }
    ensures entries { table.new ≡ table_after table.old (read_job text.now (length table.old) (length pixels.old)) }
    ensures bytes { pixels.new ≡ store_after pixels.old (read_job text.now (length table.old) (length pixels.old)) }
    ensures rows { rows.new ≡ leaving (λ a. a.size.rows) rows.old (read_job text.now (length table.old) (length pixels.old)) }
    ensures columns { columns.new ≡ leaving (λ a. a.size.columns) columns.old (read_job text.now (length table.old) (length pixels.old)) }
    ensures count { count.new ≡ leaving (λ a. a.size.count) count.old (read_job text.now (length table.old) (length pixels.old)) }
    ensures gap { gap.new ≡ leaving (λ a. a.size.gap) gap.old (read_job text.now (length table.old) (length pixels.old)) }
{
    match job_calls::read_job(text, table, pixels) {
        Ok(size) => {
            put_size(size, rows, columns, count, gap);
            done()
        }
        Err(refusal) => refused(refusal),
    }
}

// Sets the lock of a piece, asked for from a station: 0 the planner's, which may not, 1 the cutter's.
#[unsafe(no_mangle)]
pub extern "C" fn sigbrol_set_lock(
    rows: usize,
    columns: usize,
    count: usize,
    gap: usize,
    table: &mut [PieceEntry],
    pixels: &[u8],
    piece: usize,
    station: usize,
) -> Reply
    ensures answer { result ≡ reply_to (set_lock_call (lent_as rows columns count gap table.old pixels.now) piece station) }
    ensures entries { table.new ≡ locked_after table.old (set_lock_call (lent_as rows columns count gap table.old pixels.now) piece station) }
    ensures locks { LocksClaims (lent_as rows columns count gap table.old pixels.now) (lock_call piece station ∷ []) (lent_as rows columns count gap table.new pixels.now) }
{
    match job_lock_calls::set_lock(
        size_of(rows, columns, count, gap),
        table,
        pixels,
        piece,
        station,
    ) {
        Ok(()) => done(),
        Err(refusal) => refused(refusal),
    }
}
