// Document 01's limits, 'Sheet and panels', and document 02's of the gap and of a lock: the ranges of a job's and of a piece's numbers. The check of a lent
// job and the reader of a job text ask for the same.
#![tactic(auto)]

ghost use Rattle.std.specs.Prelude.{◌≡◌, leb};
ghost use Rattle.model.specs.Lent.{up_to, numbers_in_range, sheet_in_range, sides_in_range, lock_bound};

use model::{
    AREA_BOUND, COLUMN_BOUND, JobSize, LOCK_BOUND, PIECE_BOUND, ROW_BOUND, SIDE_BOUND, TURNS_BOUND,
};

// The largest gap between pieces.
pub const GAP_BOUND: usize = 8;

// From 1 to the bound.
fn up_to(bound: usize, k: usize) -> bool
    ensures { result ≡ up_to bound k }
{
    if k < 1 {
        return false;
    }
    k <= bound
}

// W, L, n and g are in range.
pub fn numbers_in_range(size: JobSize) -> bool
    ensures { result ≡ numbers_in_range size }
{
    if !up_to(ROW_BOUND, size.rows) {
        return false;
    }
    if !up_to(COLUMN_BOUND, size.columns) {
        return false;
    }
    if !up_to(PIECE_BOUND, size.count) {
        return false;
    }
    size.gap <= GAP_BOUND
}

// They are, and the sheet is not too large.
pub fn sheet_in_range(size: JobSize) -> bool
    ensures { result ≡ sheet_in_range size }
{
    if !numbers_in_range(size) {
        return false;
    }
    size.rows * size.columns <= AREA_BOUND
}

// The sides are in range and the sum of turns is odd and at most 15.
pub fn sides_in_range(columns: usize, rows: usize, turns: usize) -> bool
    ensures { result ≡ sides_in_range columns rows turns }
{
    if !up_to(SIDE_BOUND, columns) {
        return false;
    }
    if !up_to(SIDE_BOUND, rows) {
        return false;
    }
    if turns % 2 != 1 {
        return false;
    }
    turns <= TURNS_BOUND
}

// The lock is 0 or 1.
pub fn lock_in_range(lock: usize) -> bool
    ensures { result ≡ leb lock lock_bound }
{
    lock <= LOCK_BOUND
}
