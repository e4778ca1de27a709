// The last line of what the program prints: how a run ended, or a refusal.
#![tactic(auto)]

ghost use Rattle.std.specs.Prelude.{[], ◌∷◌, ◌≤◌};
ghost use Rattle.model.specs.Text.{comma, decimal};
ghost use Rattle.model.specs.Program.{word_line, refusal_text, end_word};
ghost use Rattle.layout_write_calls.specs.Written.{Written};
ghost use Rattle.program_text.specs.Output.{output_bound};

use model::Refusal;
use text_fields::{put_byte, put_decimal, put_word};

// A number of at most 10 digits behind a comma, and the position after it.
fn put_number(text: &mut [u8], at: usize, k: u64) -> usize
    requires { at ≤ output_bound }
    ensures { Written text.old at (comma ∷ decimal 10 k) 11 result text.new }
{
    let next = put_byte(text, at, b',');
    put_decimal(text, next, 10, k)
}

// `end,clear` where the plain sum is 0, else `end,open`, and the position after it.
fn put_end_word(text: &mut [u8], at: usize, sum: u64) -> usize
    requires { at ≤ output_bound }
    ensures { Written text.old at (end_word sum) 9 result text.new }
{
    let clear = sum == 0;
    if clear {
        return put_word(text, at, b"end,clear");
    }
    put_word(text, at, b"end,open")
}

// The end line: the word, plain sum, trials, moves and used length; and the position after it.
pub fn put_end_line(
    text: &mut [u8],
    at: usize,
    sum: u64,
    made: u64,
    moves: u64,
    used: usize,
) -> usize
    requires { at ≤ 2000 }
    ensures { Written text.old at (word_line (end_word sum) (sum ∷ made ∷ moves ∷ used ∷ [])) 54 result text.new }
{
    let after_word = put_end_word(text, at, sum);
    let after_sum = put_number(text, after_word, sum);
    let after_made = put_number(text, after_sum, made);
    let after_moves = put_number(text, after_made, moves);
    let after_used = put_number(text, after_moves, used as u64);
    put_byte(text, after_used, b'\n')
}

// The line of a refused job, at the front: number and line; and the position after it.
pub fn put_refusal_line(text: &mut [u8], refusal: Refusal) -> usize
    ensures { Written text.old 0 (refusal_text refusal) 30 result text.new }
{
    let after_word = put_word(text, 0, b"refused");
    let after_number = put_number(text, after_word, refusal.number as u64);
    let after_line = put_number(text, after_number, refusal.first as u64);
    put_byte(text, after_line, b'\n')
}
