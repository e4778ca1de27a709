// Comparing a lent store and its starts with the job's, piece after piece.
ghost use Rattle.std.specs.Prelude.{◌≡◌, ◌&&◌, eqb, ltb, get_or, length};
ghost use Rattle.model.specs.Lent.{lent_by, job_of};
ghost use Rattle.model.specs.Store.{store_well};
ghost use Rattle.strip_store.specs.Made.{StoreReady};

use model::{Direction, JobSize, PieceEntry, StripEntry};

// The start of a piece is there and is the given place.
fn starts_at(starts: &[u32], i: usize, at: usize) -> bool
    ensures { result ≡ (ltb i (length starts.now) && eqb (get_or starts.now i 0) at) }
{
    if i < starts.len() {
        return starts[i] as usize == at;
    }
    false
}

// The lent store and starts begin with the job's in these turns.
pub fn same_store(
    size: JobSize,
    table: &[PieceEntry],
    pixels: &[u8],
    turns: &[u16],
    direction: Direction,
    strips: &[StripEntry],
    starts: &[u32],
) -> bool
    requires { StoreReady (lent_by size table.now pixels.now) turns.now }
    ensures { result ≡ store_well direction (job_of (lent_by size table.now pixels.now)) turns.now strips.now starts.now }
{
    let mut at = 0;
    for i in 0..size.count {
        if !starts_at(starts, i, at) {
            return false;
        }
        let start = job_check::pixel_start(table, i);
        let turn = layout_places::turn_or_zero(turns[i]);
        let Some(end) = strip_scan::compare::compare_piece(
            table, pixels, i, start, turn, direction, strips, at,
        ) else {
            return false;
        };
        at = end;
    }
    starts_at(starts, size.count, at)
}
