// The program: standard input in, what document 01 says of it out. What is printed is decided and proved in `program_calls`.
#![tactic(auto)]

ghost use Rattle.std.specs.Prelude.{◌≡◌, ℕ, ◌≤◌, length};

use model::Refusal;
use program_calls::{INPUT_BOUND, OUTPUT_BOUND, print_run};
use std::io;
use std::io::Read;

// An input with fewer bytes is a small job.
const SMALL_INPUT: usize = 2048;

// The words of the workspace of a small job, and of any other. The maps of a job whose text has so many bytes have at most about eight times as many
// words, and what is not used is cleared in vain.
const SMALL_WORKSPACE: usize = 32768;

const LARGE_WORKSPACE: usize = 262144;

// What is printed for a small job.
fn print_small(input: &[u8], output: &mut [u8]) -> Result<u64, Refusal>
    ensures { (n : ℕ) → result ≡ Ok n → n ≤ 4096 }
{
    let mut workspace = [0u64; SMALL_WORKSPACE];
    print_run(input, output, &mut workspace)
}

// What is printed for a job of any size.
fn print_large(input: &[u8], output: &mut [u8]) -> Result<u64, Refusal>
    ensures { (n : ℕ) → result ≡ Ok n → n ≤ 4096 }
{
    let mut workspace = [0u64; LARGE_WORKSPACE];
    print_run(input, output, &mut workspace)
}

// What is printed for an input, with a workspace by what its job needs.
fn print_sized(input: &[u8], output: &mut [u8]) -> Result<u64, Refusal>
    ensures { (n : ℕ) → result ≡ Ok n → n ≤ 4096 }
{
    if input.len() < SMALL_INPUT {
        return print_small(input, output);
    }
    print_large(input, output)
}

// Reads until the buffer is full, the input ends or a read fails, and how many bytes were read.
fn read_full<R: Read>(input: &mut R, buffer: &mut [u8]) -> usize
    ensures { result ≤ length buffer.new }
{
    let mut filled = 0;
    // A while: each turn goes on by what one read gives.
    while filled < buffer.len() {
        match input.read(&mut buffer[filled..]) {
            Ok(0) | Err(_) => break,
            Ok(count) => filled += count,
        }
    }
    filled
}

// One byte above those that an input may have tells that it is too long. A read that fails counts as the end of the input; a job
// that has lost its end is refused. A write that fails is told on standard error, and then the exit status is 1.
fn main(rt: HostRuntime) -> io::Result<()> {
    let mut input = [0u8; INPUT_BOUND + 1];
    let read = read_full(&mut rt.stdin(), &mut input);
    let mut output = [0u8; OUTPUT_BOUND];
    // No output has more bytes than this buffer, so that it is not refused.
    let Ok(written) = print_sized(&input[..read], &mut output) else {
        return Ok(());
    };
    let count = written as usize;
    rt.stdout().write_all(&output[..count])
}
