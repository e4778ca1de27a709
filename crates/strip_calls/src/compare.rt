// Comparing both lent stores with the job's.
ghost use Rattle.std.specs.Prelude.{◌≡◌};
ghost use Rattle.model.specs.Lent.{lent_by, job_of};
ghost use Rattle.model.specs.Calls.{stores_well};
ghost use Rattle.strip_store.specs.Made.{StoreReady};
ghost use Rattle.strip_calls.specs.Stores.{stores_by};

use model::{Direction, JobSize, PieceEntry, StripEntry};
use strip_store::compare::same_store;

// Both lent stores, each with its starts, begin with the job's in these turns.
pub fn same_stores(
    size: JobSize,
    table: &[PieceEntry],
    pixels: &[u8],
    turns: &[u16],
    row_strips: &[StripEntry],
    row_starts: &[u32],
    column_strips: &[StripEntry],
    column_starts: &[u32],
) -> bool
    requires { StoreReady (lent_by size table.now pixels.now) turns.now }
    ensures { result ≡ stores_well (job_of (lent_by size table.now pixels.now)) turns.now (stores_by row_strips.now row_starts.now column_strips.now column_starts.now) }
{
    if !same_store(
        size,
        table,
        pixels,
        turns,
        Direction::Horizontal,
        row_strips,
        row_starts,
    ) {
        return false;
    }
    same_store(
        size,
        table,
        pixels,
        turns,
        Direction::Vertical,
        column_strips,
        column_starts,
    )
}
