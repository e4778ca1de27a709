// The row store and the column store filled.
ghost use Rattle.std.specs.Prelude.{◌≡◌, true};
ghost use Rattle.model.specs.Lent.{lent_by, job_of};
ghost use Rattle.model.specs.Refusal.{given};
ghost use Rattle.model.specs.Calls.{stores_of, stores_after};
ghost use Rattle.strip_store.specs.Made.{StoreReady};
ghost use Rattle.strip_calls.specs.Stores.{stores_by};
ghost use Rattle.strip_calls.specs.Rooms.{room_for_both, has_room};

use model::{Direction, JobSize, PieceEntry, StripEntry};
use strip_store::fill::{Room, fill, has_room};

// The row store and the column store have room for the job's.
pub fn both_have_room(
    size: JobSize,
    table: &[PieceEntry],
    pixels: &[u8],
    turns: &[u16],
    rows: Room,
    columns: Room,
) -> bool
    requires { StoreReady (lent_by size table.now pixels.now) turns.now }
    ensures { result ≡ room_for_both (job_of (lent_by size table.now pixels.now)) turns.now rows columns }
{
    if !has_room(size, table, pixels, turns, Direction::Horizontal, rows) {
        return false;
    }
    has_room(size, table, pixels, turns, Direction::Vertical, columns)
}

// Fills the row store and the column store, which have room.
pub fn fill_both(
    size: JobSize,
    table: &[PieceEntry],
    pixels: &[u8],
    turns: &[u16],
    row_strips: &mut [StripEntry],
    row_starts: &mut [u32],
    column_strips: &mut [StripEntry],
    column_starts: &mut [u32],
)
    requires fact_1 { StoreReady (lent_by size table.now pixels.now) turns.now }
    requires fact_2 { has_room (job_of (lent_by size table.now pixels.now)) turns.now (stores_by row_strips.old row_starts.old column_strips.old column_starts.old) ≡ true }
    ensures { stores_by row_strips.new row_starts.new column_strips.new column_starts.new ≡ stores_after (stores_by row_strips.old row_starts.old column_strips.old column_starts.old) (given (stores_of (job_of (lent_by size table.now pixels.now)) turns.now)) }
{
    fill(
        size,
        table,
        pixels,
        turns,
        Direction::Horizontal,
        row_strips,
        row_starts,
    );
    fill(
        size,
        table,
        pixels,
        turns,
        Direction::Vertical,
        column_strips,
        column_starts,
    );
}
