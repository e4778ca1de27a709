// The check of a lent job: document 01, 'When a call says no', number 8. Each function answers one part of the check; none trusts what
// the parts before it have not shown.
ghost use Rattle.std.specs.Prelude.{◌≡◌, true, ℕ, ◌+◌, ◌*◌, ◌<◌, ◌≤◌, ◌^◌, length};
ghost use Rattle.model.specs.Bounded.{all_below};
ghost use Rattle.model.specs.Piece.{tight};
ghost use Rattle.model.specs.Lent.{lent_by, lent_well, entry_in_range, entry_fits, pixel_start, piece_bound, side_bound};
ghost use Rattle.job_check.specs.Boxes.{Side, box_in, stored_box, some_mark, all_bits, table_well};

use job_limits::{lock_in_range, sheet_in_range, sides_in_range};
use model::{AREA_BOUND, JobSize, PieceEntry};
use piece_table::{area_of, columns_of, lock_of, rows_of, turns_of};

// The entry is in range.
fn entry_in_range(table: &[PieceEntry], i: usize) -> bool
    requires { i < length table.now }
    ensures { result ≡ entry_in_range table.now i }
{
    let columns = columns_of(table, i);
    let rows = rows_of(table, i);
    let turns = turns_of(table, i) as usize;
    if !sides_in_range(columns, rows, turns) {
        return false;
    }
    lock_in_range(lock_of(table, i) as usize)
}

// Every entry is in range.
fn entries_in_range(table: &[PieceEntry], count: usize) -> bool
    requires { count ≤ length table.now }
    ensures { result ≡ all_below count (entry_in_range table.now) }
{
    (0..count).all(|i| entry_in_range(table, i))
}

// The box of piece i is no longer and no wider than the sheet.
fn entry_fits(size: JobSize, table: &[PieceEntry], i: usize) -> bool
    requires { i < length table.now }
    ensures { result ≡ entry_fits size table.now i }
{
    if size.columns < columns_of(table, i) {
        return false;
    }
    rows_of(table, i) <= size.rows
}

// Every box is.
fn entries_fit(size: JobSize, table: &[PieceEntry]) -> bool
    requires { size.count ≤ length table.now }
    ensures { result ≡ all_below size.count (entry_fits size table.now) }
{
    (0..size.count).all(|i| entry_fits(size, table, i))
}

// Where piece i's pixels begin in the store; at n, how many the store has to have.
pub fn pixel_start(table: &[PieceEntry], i: usize) -> usize
    requires { (i ≤ length table.now) × (i ≤ piece_bound) }
    ensures { result ≡ pixel_start table.now i }
{
    (0..i).map(|k| area_of(table, k)).sum()
}

// Sheet, entries and areas are well.
fn table_well(size: JobSize, table: &[PieceEntry]) -> bool
    ensures { result ≡ table_well size table.now }
{
    if !sheet_in_range(size) {
        return false;
    }
    let count = size.count;
    if table.len() < count {
        return false;
    }
    if !entries_in_range(table, count) {
        return false;
    }
    if !entries_fit(size, table) {
        return false;
    }
    pixel_start(table, count) <= AREA_BOUND
}

// Every byte below the bound is 0 or 1.
fn all_bits(bytes: &[u8], count: usize) -> bool
    requires { count ≤ length bytes.now }
    ensures { result ≡ all_bits bytes.now count }
{
    bytes[..count].iter().all(|byte| *byte <= 1)
}

// One of `count` bytes from `first` on, each `step` after the last, is the mark.
fn some_mark(mark: u8, bytes: &[u8], first: usize, step: usize, count: usize) -> bool
    requires { (first < 2 ^ 63 + 2 ^ 32) × (step ≤ 512) × (count ≤ side_bound) }
    ensures { result ≡ some_mark mark bytes.now first step count }
{
    (0..count).any(|k| text_fields::byte_at(bytes, first + k * step) == mark)
}

// First and last row and column of a box each hold a pixel, which is the byte `mark`.
pub fn box_tight(
    mark: u8,
    bytes: &[u8],
    start: usize,
    stride: usize,
    columns: usize,
    rows: usize,
) -> bool
    requires { (start < 2 ^ 63 + 2 ^ 31) × (stride ≤ 512) × Side columns × Side rows }
    ensures { result ≡ tight (box_in mark bytes.now start stride columns rows) }
{
    if !some_mark(mark, bytes, start, 1, columns) {
        return false;
    }
    if !some_mark(mark, bytes, start + (rows - 1) * stride, 1, columns) {
        return false;
    }
    if !some_mark(mark, bytes, start, stride, rows) {
        return false;
    }
    some_mark(mark, bytes, start + (columns - 1), stride, rows)
}

// The box of entry i is tight, its pixels beginning at `start` of the store.
fn stored_box_tight(table: &[PieceEntry], i: usize, pixels: &[u8], start: usize) -> bool
    requires { (i < length table.now) × (start < 2 ^ 62) × (entry_in_range table.now i ≡ true) × (start ≡ pixel_start table.now i) }
    ensures { result ≡ tight (stored_box table.now pixels.now i) }
{
    let columns = columns_of(table, i);
    let rows = rows_of(table, i);
    box_tight(1, pixels, start, columns, columns, rows)
}

// Every box is tight.
fn boxes_tight(table: &[PieceEntry], count: usize, pixels: &[u8]) -> bool
    requires { (count ≤ length table.now) × (count ≤ piece_bound) × ((i : ℕ) → i < count → entry_in_range table.now i ≡ true) }
    ensures { result ≡ all_below count (λ i. tight (stored_box table.now pixels.now i)) }
{
    let mut start = 0;
    for i in 0..count {
        if !stored_box_tight(table, i, pixels, start) {
            return false;
        }
        start += area_of(table, i);
    }
    true
}

// What is lent is a job that reading gives.
pub fn check_job(size: JobSize, table: &[PieceEntry], pixels: &[u8]) -> bool
    ensures { result ≡ lent_well (lent_by size table.now pixels.now) }
{
    if !table_well(size, table) {
        return false;
    }
    let count = size.count;
    let total = pixel_start(table, count);
    let short = pixels.len() < total;
    if short {
        return false;
    }
    if !all_bits(pixels, total) {
        return false;
    }
    boxes_tight(table, count, pixels)
}
