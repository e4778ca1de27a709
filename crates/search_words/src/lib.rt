// Words as one string of bits, moved up into another and taken over there, or taken over by itself: what the map of two pieces is made by.
#![tactic(auto)]

ghost use Rattle.std.specs.Prelude.{◌+◌, ◌*◌, ◌/◌, ◌<◌, ◌≤◌, length};
ghost use Rattle.bit_laws.specs.Bit.{length_limit};
ghost use Rattle.search_words.specs.Words.{OrRow, OrFlat, Spare, StripOf, Cleared, Spread, Repeated};

// Sets the first words to 0.
pub fn clear_words(words: &mut [u64], count: usize)
    requires { count ≤ length words.old }
    ensures { Cleared count words.old words.new }
{
    words[..count].fill(0);
}

// A row of `blocks` words takes over another's bits, moved up by s. The part of a word that moves on is shifted twice, since a shift
// by a whole word is none.
pub fn or_row(to: &mut [u64], at: usize, from: &[u64], start: usize, blocks: usize, s: usize)
    requires { (at + blocks ≤ length to.old) × (start + blocks ≤ s / 64 + length from.now) }
    ensures { OrRow to.old at from.now start blocks s to.new }
{
    let skip = s / 64;
    let up = s % 64;
    let mut low: u64 = 0;
    for j in skip..blocks {
        let a = from[start + (j - skip)];
        to[at + j] |= (a << up) | ((low >> 1) >> (63 - up));
        low = a;
    }
}

// A string takes over another's bits, moved up by s. The other's last word is clear.
pub fn or_flat(to: &mut [u64], from: &[u64], s: usize)
    requires { (s / 64 + length from.now ≤ length to.old) × Spare from.now }
    ensures { OrFlat to.old from.now s to.new }
{
    or_row(to, 0, from, 0, s / 64 + from.len(), s);
}

// A string takes over the marks of a strip of `count` pixels at a place: `wide` has n marks for each of the other piece's.
pub fn or_strip(to: &mut [u64], wide: &[u64], n: usize, place: usize, count: usize)
    requires { ((place + count) / 64 + length wide.now ≤ length to.old) × Spare wide.now × (n ≤ count) × (count ≤ n + n) × (place + count < length_limit) }
    ensures { StripOf to.old wide.now n place count to.new }
{
    or_flat(to, wide, place);
    if count == n {
        return;
    }
    or_flat(to, wide, place + (count - n));
}

// The string of the first `count` words takes over its own bits, moved up by s: from the top down, so that every word that is read is as
// it was.
fn spread(words: &mut [u64], count: usize, s: usize)
    requires { count ≤ length words.old }
    ensures { Spread count s words.old words.new }
{
    let skip = s / 64;
    if count <= skip {
        return;
    }
    let up = s % 64;
    let mut a = words[count - 1 - skip];
    for j in (skip + 1..count).rev() {
        let b = words[j - skip - 1];
        words[j] |= (a << up) | ((b >> 1) >> (63 - up));
        a = b;
    }
    words[skip] |= a << up;
}

// The string of the first `count` words takes over its own bits, moved up by 1, 2, .., n - 1 times the unit. Each turn does as much again
// as is done.
pub fn grow(words: &mut [u64], count: usize, unit: usize, n: usize)
    requires { (count ≤ length words.old) × (1 ≤ n) × (n * unit < length_limit) }
    ensures { Repeated count unit n words.old words.new }
{
    let mut done = 1;
    // A while: each turn goes on by as much as is done, or by what is left.
    while done < n {
        let step = done.min(n - done);
        spread(words, count, step * unit);
        done += step;
    }
}
