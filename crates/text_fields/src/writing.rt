// Writing at a position of a lent text. What lies past its end is not written, so that a call on an empty part of a text tells how long
// the text has to be.
ghost use Rattle.std.specs.Prelude.{◌≡◌, ◌+◌, ◌<◌, ◌≤◌, ◌^◌, length, set};
ghost use Rattle.std.proofs.lemmas.List.Edits.{sets};
ghost use Rattle.model.specs.Text.{decimal, digits};

// The byte at a position, and the position after it.
pub fn put_byte(text: &mut [u8], at: usize, b: u8) -> usize
    requires { at + 1 < 2 ^ 64 }
    ensures { (result ≡ at + 1) × (text.new ≡ set text.old at b) }
{
    if text.len() <= at {
        return at + 1;
    }
    text[at] = b;
    at + 1
}

// A word from a position on, and the position after it.
pub fn put_word(text: &mut [u8], at: usize, word: &[u8]) -> usize
    requires { at < 2 ^ 62 }
    ensures { (result ≡ at + length word.now) × (text.new ≡ sets text.old at word.now) }
{
    for (k, b) in word.iter().enumerate() {
        put_byte(text, at + k, *b);
    }
    at + word.len()
}

// The byte of a digit.
fn digit(k: u64) -> u8
    requires { k < 10 }
    ensures { result ≡ 48 + k }
{
    48 + k as u8
}

// A number of at most so many digits in base ten, and the position after it.
pub fn put_decimal(text: &mut [u8], at: usize, places: usize, k: u64) -> usize
    requires { (at < 2 ^ 62) × (places ≤ 20) }
    ensures { (result ≡ at + length (decimal places k)) × (text.new ≡ sets text.old at (decimal places k)) }
{
    if places == 0 {
        // Every number that is written has at most as many digits as places: this does not happen.
        return at;
    }
    if k < 10 {
        return put_byte(text, at, digit(k));
    }
    let next = put_decimal(text, at, places - 1, k / 10);
    put_byte(text, next, digit(k % 10))
}

// A number of at most 5 digits.
pub fn put_number(text: &mut [u8], at: usize, k: u32) -> usize
    requires { at < 2 ^ 62 }
    ensures { (result ≡ at + length (digits k)) × (text.new ≡ sets text.old at (digits k)) }
{
    put_decimal(text, at, 5, k as u64)
}
