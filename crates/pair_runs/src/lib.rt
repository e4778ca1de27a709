// Offsets of a no-fit line, and the runs of marked offsets as a run buffer holds them. Offsets are marked by a bit each, from -262
// on; where a run begins and ends is found by the zeros below a word's lowest set bit, so that 64 offsets are passed at a time.
#![tactic(auto)]

ghost use Rattle.std.specs.Prelude.{◌≡◌, [], min, ◌*◌, ◌<◌, ◌≤◌, length};
ghost use Rattle.std.proofs.Math.IntN.{sub_ℕ};
ghost use Rattle.model.specs.Strip.{runs, closing};
ghost use Rattle.model.specs.Overlap.{up, down, offset_bound};
ghost use Rattle.bit_laws.specs.Bit.{bit_in};
ghost use Rattle.pair_runs.specs.Runs.{offset_count, farthest, Sought, NextPlace, Put};

use model::OFFSET_BOUND;

// How many offsets a no-fit line has.
pub const OFFSET_COUNT: usize = 2 * (OFFSET_BOUND as usize) + 1;

// What an offset is counted from.
const OFFSET_BIAS: i32 = OFFSET_BOUND as i32;

// At offsets across that go this far, or farther, no pieces conflict by any gap.
const FARTHEST: u32 = OFFSET_BOUND + 1;

// The same upwards.
const FARTHEST_UP: i32 = OFFSET_BIAS + 1;

// And downwards.
const FARTHEST_DOWN: i32 = 0 - FARTHEST_UP;

// A biased offset as a signed one.
fn unbiased(k: u32) -> i32
    requires { k < 1024 }
    ensures { result ≡ sub_ℕ k offset_bound }
{
    (k as i32) - OFFSET_BIAS
}

// How far an offset goes up, up to 263.
pub fn up(o: i32) -> u32
    ensures { result ≡ min (up o) farthest }
{
    if o < 0 {
        return 0;
    }
    if FARTHEST_UP < o {
        return FARTHEST;
    }
    o as u32
}

// How far an offset goes down, up to 263.
pub fn down(o: i32) -> u32
    ensures { result ≡ min (down o) farthest }
{
    if 0 <= o {
        return 0;
    }
    if o < FARTHEST_DOWN {
        return FARTHEST;
    }
    (0 - o) as u32
}

// Puts the run of `count` marked offsets that ends before `end` into the buffer, if there is one, and tells where the next would stand.
fn put_run(out: &mut [[i32; 2]], at: usize, end: usize, count: usize) -> usize
    requires { (count ≤ end) × (end ≤ offset_count) × (at ≤ offset_count) }
    ensures { Put (closing end count []) out.old at out.new result }
{
    if count == 0 {
        return at;
    }
    if out.len() <= at {
        return at + 1;
    }
    out[at] = [unbiased((end - count) as u32), count as i32];
    at + 1
}

// A word in which the bits that are looked for are set: its own, or, where clear ones are looked for, their opposites.
fn sought(word: u64, bit: bool) -> u64
    ensures { Sought word bit result }
{
    if bit { word } else { !word }
}

// The first place from k on that is marked, or, where `bit` is false, that is not; the number of places where there is none. What is left of a
// word after a shift begins with place p: its lowest set bit is the first place looked for, and if it is 0 there is none up to the word's end.
fn next_place(marks: &[u64], k: usize, bit: bool) -> usize
    requires { (k ≤ offset_count) × (offset_count ≤ length marks.now * 64) }
    ensures { NextPlace marks.now bit k result }
{
    let mut p = k;
    // A while: it may begin within a word, and each turn goes on at the begin of the next one.
    while p < OFFSET_COUNT {
        let left = sought(marks[p / 64], bit) >> (p % 64);
        if left != 0 {
            return (p + u64::trailing_zeros(left) as usize).min(OFFSET_COUNT);
        }
        p = (p / 64 + 1) * 64;
    }
    OFFSET_COUNT
}

// Puts the maximal runs of the marked offsets into the buffer, as far as there is room, and tells how many there are. A run begins at the next marked
// place and ends before the next one that is not: what lies between two runs is passed at once, and so is a run, since all its bits are alike.
pub fn put_runs(marks: &[u64], out: &mut [[i32; 2]]) -> usize
    requires { offset_count ≤ length marks.now * 64 }
    ensures { Put (runs (bit_in marks.now) offset_count) out.old 0 out.new result }
{
    let mut at = 0;
    let mut k = 0;
    // A while: each turn goes on where the run that it put ends.
    while k < OFFSET_COUNT {
        let first = next_place(marks, k, true);
        let end = next_place(marks, first, false);
        at = put_run(out, at, end, end - first);
        k = end;
    }
    at
}
