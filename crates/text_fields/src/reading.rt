// Reading at a position of a text. Past the end every byte counts as 0, which no rule accepts.
ghost use Rattle.std.specs.Prelude.{◌≡◌, true, ◌-◌, ◌<◌, ◌≤◌, length};
ghost use Rattle.model.specs.Text.{byte, is_digit, digits_from, number_at, field_at, stands_at};
ghost use Rattle.text_fields.specs.Answers.{digit_run, Reads};

use crate::Number;

// A run of digits: its value and the position after it.
#[derive(Clone, Copy)]
struct DigitRun {
    value: usize,
    next: usize,
}

// The byte at position p, 0 past the end.
pub fn byte_at(text: &[u8], p: usize) -> u8
    ensures { result ≡ byte text.now p }
{
    if p < text.len() {
        return text[p];
    }
    0
}

// The byte is a digit.
fn is_digit(b: u8) -> bool
    ensures { result ≡ is_digit b }
{
    if b < 48 {
        return false;
    }
    b < 58
}

// The value of a digit.
fn digit_value(b: u8) -> usize
    requires { is_digit b ≡ true }
    ensures { (result ≡ b - 48) × (result ≤ 9) }
{
    (b - 48) as usize
}

// At most 5 digits from position p on.
fn digits_from(text: &[u8], p: usize) -> DigitRun
    requires { p ≤ length text.now }
    ensures { (result ≡ digit_run (digits_from text.now p 0 5)) × (result.next ≤ length text.now) × (result.value ≤ 99999) }
{
    let mut value: usize = 0;
    let mut next = p;
    for _ in 0..5usize {
        let b = byte_at(text, next);
        if !is_digit(b) {
            return DigitRun { value, next };
        }
        value = value * 10 + digit_value(b);
        next += 1;
    }
    DigitRun { value, next }
}

// The number at position p: 1 to 5 digits, a leading zero only in 0 itself.
pub fn number_at(text: &[u8], p: usize) -> Option<Number>
    ensures { Reads result (number_at text.now p) text.now }
{
    let first = byte_at(text, p);
    if !is_digit(first) {
        return None;
    }
    let run = digits_from(text, p);
    let next = run.next;
    if is_digit(byte_at(text, next)) {
        return None;
    }
    if first != 48 {
        return Some(Number {
            value: run.value,
            next,
        });
    }
    if next == p + 1 {
        return Some(Number {
            value: run.value,
            next,
        });
    }
    None
}

// The field at position p: a number and the byte that ends it.
pub fn field_at(text: &[u8], p: usize, end: u8) -> Option<Number>
    requires { 0 < end }
    ensures { Reads result (field_at end text.now p) text.now }
{
    let Number { value, next } = number_at(text, p)?;
    if byte_at(text, next) != end {
        return None;
    }
    Some(Number {
        value,
        next: next + 1,
    })
}

// The word stands at position p.
pub fn word_at(text: &[u8], p: usize, word: &[u8]) -> bool
    requires { p ≤ length text.now }
    ensures { result ≡ stands_at word.now text.now p }
{
    (0..word.len()).all(|k| byte_at(text, p + k) == word[k])
}
