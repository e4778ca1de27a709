// Bytes to numbers and words, numbers to bytes: document 01, 'Job text'. Nothing here knows what a job is.
#![tactic(auto)]

mod reading;
mod writing;

pub use reading::{byte_at, field_at, number_at, word_at};
pub use writing::{put_byte, put_decimal, put_number, put_word};

// A number and the position after it. Where none is read for its wrong form, a call answers None.
#[derive(Clone, Copy)]
pub struct Number {
    pub value: usize,
    pub next: usize,
}
