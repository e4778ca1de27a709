// Row lines, stored as pixel bytes: document 01, 'Job text'. A byte past the end of the store is not stored, so that a run over empty
// buffers tells whether the text is right and how long the store has to be.
#![tactic(auto)]

ghost use Rattle.std.specs.Prelude.{◌≡◌, ◌+◌, ◌*◌, ◌<◌, ◌≤◌, ◌^◌, length};
ghost use Rattle.model.specs.JobText.{marks_at, row_at, rows_at};
ghost use Rattle.model.specs.Lent.{side_bound};
ghost use Rattle.job_rows.specs.Stores.{mark_bit, some_wrong, MarksStored, rows_answer, RowsStored};

use job_lines::refusal;
use model::Refusal;
use text_fields::{byte_at, put_byte, word_at};

// The pixel byte of a mark; 2 where the byte is none.
fn mark_bit(b: u8) -> u8
    ensures { result ≡ mark_bit b }
{
    if b == b'#' {
        return 1;
    }
    if b == b'.' {
        return 0;
    }
    2
}

// The fewest marks that are read at once: of fewer, one after the other takes less time.
const MANY: usize = 8;

// Stores so many marks from position p on, one after the other.
fn fill_few(text: &[u8], p: usize, count: usize, pixels: &mut [u8], at: usize) -> bool
    requires { (p ≤ length text.now + 4) × (count ≤ side_bound) × (at ≤ 2 ^ 32) }
    ensures { MarksStored at pixels.old pixels.new result (marks_at text.now count p) }
{
    for k in 0..count {
        let bit = mark_bit(byte_at(text, p + k));
        if 1 < bit {
            return false;
        }
        put_byte(pixels, at + k, bit);
    }
    true
}

// Whether one of so many bytes from position p on is no mark. It looks at all of them: without a branch between them many are read at once.
fn some_wrong(text: &[u8], p: usize, count: usize) -> bool
    requires { (p + count ≤ length text.now) × (count ≤ side_bound) }
    ensures { result ≡ some_wrong text.now p count }
{
    let mut wrong = false;
    for k in 0..count {
        wrong = wrong | (1 < mark_bit(text[p + k]));
    }
    wrong
}

// Stores so many marks from position p on, many at once: asked first, and then stored as far as there is room.
fn fill_many(text: &[u8], p: usize, count: usize, pixels: &mut [u8], at: usize) -> bool
    requires { (p ≤ length text.now + 4) × (count ≤ side_bound) × (at ≤ 2 ^ 32) }
    ensures { MarksStored at pixels.old pixels.new result (marks_at text.now count p) }
{
    let past = p + count;
    if text.len() < past {
        return count == 0;
    }
    if some_wrong(text, p, count) {
        return false;
    }
    let room = count.min(pixels.len().saturating_sub(at));
    for k in 0..room {
        pixels[at + k] = mark_bit(text[p + k]);
    }
    true
}

// Stores so many marks from position p on.
fn fill_marks(text: &[u8], p: usize, count: usize, pixels: &mut [u8], at: usize) -> bool
    requires { (p ≤ length text.now + 4) × (count ≤ side_bound) × (at ≤ 2 ^ 32) }
    ensures { MarksStored at pixels.old pixels.new result (marks_at text.now count p) }
{
    if count < MANY {
        return fill_few(text, p, count, pixels, at);
    }
    fill_many(text, p, count, pixels, at)
}

// Stores a row line, `row,` with l marks.
fn fill_row(text: &[u8], p: usize, l: usize, pixels: &mut [u8], at: usize) -> bool
    requires { (p ≤ length text.now) × (l ≤ side_bound) × (at ≤ 2 ^ 32) }
    ensures { MarksStored at pixels.old pixels.new result (row_at text.now l p) }
{
    if !word_at(text, p, b"row,") {
        return false;
    }
    if !fill_marks(text, p + 4, l, pixels, at) {
        return false;
    }
    byte_at(text, p + 4 + l) == b'\n'
}

// Stores w row lines from position p on, the first of them on the given line: the position after them, or why they are refused.
pub fn fill_rows(
    text: &[u8],
    p: usize,
    l: usize,
    w: usize,
    line: usize,
    pixels: &mut [u8],
    at: usize,
) -> Result<usize, Refusal>
    requires { (p ≤ length text.now) × (l ≤ side_bound) × (w ≤ side_bound) × (line ≤ 2 ^ 31) × (at ≤ 2 ^ 31) }
    ensures { (result ≡ rows_answer (rows_at text.now l w p line)) × RowsStored at pixels.old pixels.new (rows_at text.now l w p line) }
{
    let mut next = p;
    for y in 0..w {
        let first = at + y * l;
        if !fill_row(text, next, l, pixels, first) {
            return Err(refusal(1, line + y));
        }
        next += l + 5;
    }
    Ok(next)
}
