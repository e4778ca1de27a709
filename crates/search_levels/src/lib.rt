// Levels of one string of bits in one slice of words: level k has 2 ^ k marks for each mark of level 0. A strip of up to 511 pixels is one or
// two moves up of one level.
#![tactic(auto)]

ghost use Rattle.std.specs.Prelude.{◌+◌, ◌<◌, ◌≤◌, length};
ghost use Rattle.search_words.specs.Words.{OrRow};
ghost use Rattle.search_levels.specs.Levels.{Copied, NextLevel, LevelRoom, Grown};

// The most levels: those of strips of up to 511 pixels.
pub const LEVELS: usize = 9;

// Copies words to a later place of the same slice.
fn copy_words(ws: &mut [u64], from: usize, to: usize, count: usize)
    requires { (from + count ≤ to) × (to + count ≤ length ws.old) }
    ensures { Copied ws.old from to count ws.new }
{
    ws.copy_within(from..from + count, to);
}

// A row takes over the bits of an earlier one of the same slice, moved up by s.
fn or_within(ws: &mut [u64], at: usize, start: usize, blocks: usize, s: usize)
    requires { (start + blocks ≤ at) × (at + blocks ≤ length ws.old) }
    ensures { OrRow ws.old at ws.old start blocks s ws.new }
{
    let skip = s / 64;
    let up = s % 64;
    let mut low: u64 = 0;
    for j in skip..blocks {
        let a = ws[start + (j - skip)];
        ws[at + j] |= (a << up) | ((low >> 1) >> (63 - up));
        low = a;
    }
}

// Makes the next level: the one before it, and the same moved up by s.
fn widen_next(ws: &mut [u64], from: usize, size: usize, s: usize)
    requires { from + size + size ≤ length ws.old }
    ensures { NextLevel ws.old from size s ws.new }
{
    let at = from + size;
    copy_words(ws, from, at, size);
    or_within(ws, at, from, size, s);
}

// Makes the levels from 1 on, each by doubling the one before it.
pub fn widen_levels(ws: &mut [u64], size: usize, levels: usize)
    requires { LevelRoom ws.old size levels }
    ensures { Grown ws.old size levels ws.new }
{
    let last = levels - 1;
    let mut from = 0;
    let mut s = 1;
    for _k in 0..last {
        widen_next(ws, from, size, s);
        from += size;
        s += s;
    }
}
