// How far the set bits of a map lie from a clear one, 64 places of a row at a time: level r keeps the places that are set at distance r on all
// four sides, and a place that leaves at level r gets r.
#![tactic(auto)]

ghost use Rattle.std.specs.Prelude.{◌+◌, ◌*◌, ◌<◌, ◌≤◌, length};
ghost use Rattle.bit_laws.specs.Bit.{length_limit};
ghost use Rattle.search_peel.specs.Peel.{BitsAt, LowBits, Inner, BitsIn, Filled, Reaches, Peeled};

// A word of set bits.
const ALL: u64 = 18446744073709551615;

// 64 bits from p on. The bits of the next word are shifted twice, since a shift by a whole word is none.
pub fn bits_at(ws: &[u64], p: usize) -> u64
    requires { (p + 128 ≤ length ws.now * 64) × (length ws.now < length_limit) }
    ensures { BitsAt ws.now p result }
{
    let j = p / 64;
    let i = p % 64;
    (ws[j] >> i) | ((ws[j + 1] << 1) << (63 - i))
}

// A word with its first bits set.
fn low_bits(count: usize) -> u64
    requires { (1 ≤ count) × (count ≤ 64) }
    ensures { LowBits count result }
{
    ALL >> (64 - count)
}

// What is left of v's bits at distance r: those with set bits on all four sides.
fn inner(ws: &[u64], w: usize, p: usize, r: usize, v: u64) -> u64
    requires { (1 ≤ w) × (r * w ≤ p) × (p + r * w + 128 ≤ length ws.now * 64) × (length ws.now < length_limit) }
    ensures { Inner ws.now w p r v result }
{
    let far = r * w;
    v & bits_at(ws, p + r) & bits_at(ws, p - r) & bits_at(ws, p + far) & bits_at(ws, p - far)
}

// Sets the line, from a place on, to v at each bit of m.
fn fill(line: &mut [u8], at: usize, m: u64, v: u8)
    requires { BitsIn m at (length line.old) }
    ensures { Filled at m v line.old line.new }
{
    let mut left = m;
    // A while: each turn takes the lowest bit that is left, however far up it stands.
    while left != 0 {
        let x = u64::trailing_zeros(left) as usize;
        line[at + x] = v;
        left = left & (left - 1);
    }
}

// Sets the line, from a place on, to the distance of each set bit of the `count` from p on.
pub fn peel(ws: &[u64], w: usize, p: usize, count: usize, line: &mut [u8], at: usize)
    requires fact_1 { Reaches ws.now w p count }
    requires fact_2 { (at + count ≤ length line.old) × (length line.old < length_limit) }
    ensures { Peeled ws.now w p count at line.old line.new }
{
    let mut v = bits_at(ws, p) & low_bits(count);
    let mut r = 1;
    // A while: it ends when a layer leaves nothing inside, which the bits decide.
    while v != 0 {
        let n = inner(ws, w, p, r, v);
        fill(line, at, v & !n, r as u8);
        v = n;
        r += 1;
    }
}
