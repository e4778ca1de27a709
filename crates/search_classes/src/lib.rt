// Equal pieces: see specs/Classes.antt. A job often has a piece many times; what is made of its shape alone is made for one of them.
#![tactic(auto)]

ghost use Rattle.std.specs.Prelude.{true, ◌≡◌, ℕ, ◌+◌, ◌<◌, ◌≤◌, length, get_or};
ghost use Rattle.model.specs.Lent.{lent_by, job_of, lent_well, area_bound};
ghost use Rattle.search_classes.specs.Classes.{Equal, Classes};

use job_check::pixel_start;
use model::{JobSize, PieceEntry};
use piece_table::{area_of, columns_of, rows_of};

// Whether n bytes from one place on are those from another place on.
fn same_bytes(bytes: &[u8], a: usize, b: usize, n: usize) -> bool
    requires { (a + n ≤ length bytes.now) × (b + n ≤ length bytes.now) × (a + n ≤ area_bound) × (b + n ≤ area_bound) }
    ensures { result ≡ true → (k : ℕ) → k < n → get_or bytes.now (a + k) 0 ≡ get_or bytes.now (b + k) 0 }
{
    bytes[a..a + n] == bytes[b..b + n]
}

// Whether two pieces have the same box and the same pixels.
fn equal_pieces(size: JobSize, table: &[PieceEntry], pixels: &[u8], i: usize, k: usize) -> bool
    requires fact_1 { lent_well (lent_by size table.now pixels.now) ≡ true }
    requires fact_2 { (i < size.count) × (k < size.count) }
    ensures { result ≡ true → Equal (job_of (lent_by size table.now pixels.now)) i k }
{
    if columns_of(table, i) != columns_of(table, k) {
        return false;
    }
    if rows_of(table, i) != rows_of(table, k) {
        return false;
    }
    let a = pixel_start(table, i);
    let b = pixel_start(table, k);
    same_bytes(pixels, a, b, area_of(table, i))
}

// The class of a piece.
fn class_of(size: JobSize, table: &[PieceEntry], pixels: &[u8], i: usize) -> usize
    requires fact_1 { lent_well (lent_by size table.now pixels.now) ≡ true }
    requires fact_2 { i < size.count }
    ensures { (result ≤ i) × Equal (job_of (lent_by size table.now pixels.now)) i result }
{
    (0..i)
        .find(|k| equal_pieces(size, table, pixels, i, *k))
        .unwrap_or(i)
}

// Writes the class of each piece, from the first word on.
pub fn put_classes(size: JobSize, table: &[PieceEntry], pixels: &[u8], words: &mut [u64])
    requires fact_1 { lent_well (lent_by size table.now pixels.now) ≡ true }
    requires fact_2 { size.count ≤ length words.old }
    ensures { Classes (job_of (lent_by size table.now pixels.now)) words.new }
{
    for (i, word) in words[..size.count].iter_mut().enumerate() {
        *word = class_of(size, table, pixels, i) as u64;
    }
}
