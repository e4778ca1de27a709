// A line of a word and numbers, read at a position: document 01, 'Job text' and 'Start, layout text, sheet'. Nothing here knows what
// the numbers say.
#![tactic(auto)]

ghost use Rattle.std.specs.Prelude.{◌+◌, ◌<◌, ◌≤◌, ◌≡◌, length};
ghost use Rattle.model.specs.Text.{fields_at, line_at};
ghost use Rattle.text_numbers.specs.Lines.{end_byte, field_ends, ReadsLine};

use text_fields::{field_at, word_at};

// The numbers of a line, the first at index 0, behind them zeros, and the position after the line. Where the form is wrong, a call answers None.
#[derive(Clone, Copy)]
pub struct LineNumbers {
    pub numbers: [usize; 8],
    pub next: usize,
}

// The byte that ends a field with so many fields behind it.
fn end_byte(behind: usize) -> u8
    ensures { (result ≡ end_byte behind) × (0 < result) }
{
    let last = behind == 0;
    if last {
        return b'\n';
    }
    b','
}

// So many numbers from position p on, each with its end byte.
fn fields_at(text: &[u8], p: usize, count: usize) -> Option<LineNumbers>
    requires { (0 < count) × (count ≤ 8) }
    ensures { ReadsLine result count (fields_at (field_ends count) text.now p) text.now }
{
    let mut numbers = [0usize; 8];
    let mut next = p;
    for k in 0..count {
        let number = field_at(text, next, end_byte(count - k - 1))?;
        numbers[k] = number.value;
        next = number.next;
    }
    Some(LineNumbers { numbers, next })
}

// The line of the word and so many numbers at position p.
pub fn line_at(text: &[u8], p: usize, word: &[u8], count: usize) -> Option<LineNumbers>
    requires { (p ≤ length text.now) × (0 < count) × (count ≤ 8) }
    ensures { ReadsLine result count (line_at word.now (field_ends count) text.now p) text.now }
{
    if !word_at(text, p, word) {
        return None;
    }
    fields_at(text, p + word.len(), count)
}
