// How far the set bits of a column of a map lie from a clear one: along their own rows, to both sides at once, and up and down the column, by
// counting the set places on the way. A row is read no farther than the count so far, so that one word around a place nearly always does.
#![tactic(auto)]

ghost use Rattle.std.specs.Prelude.{◌≡◌, ◌+◌, ◌*◌, ◌<◌, ◌≤◌, min, length};
ghost use Rattle.std.specs.Int.Count.{count_trailing_zeros, count_leading_zeros};
ghost use Rattle.bit_laws.specs.Bit.{length_limit};
ghost use Rattle.search_columns.specs.Column.{FirstClear, FirstWithin, beside, ClearBelow, GapWithin, Walled, ColumnWalled, SidesDone, counted, Fallen, Ended, ColumnEnds, ColumnDone};

use search_peel::bits_at;

// The bits of a word, half of them, and the highest one.
const WORD: usize = 64;

const HALF: usize = 32;

const TOP: usize = 63;

// The largest number that a byte holds.
const BYTE_MOST: usize = 255;

// The clear bits at and below p: the one t below p stands t below the word's top.
fn clear_below(ws: &[u64], p: usize) -> u64
    requires { (p + 128 ≤ length ws.now * 64) × (length ws.now < length_limit) }
    ensures { ClearBelow ws.now p 64 result }
{
    let s = p.min(TOP);
    !bits_at(ws, p - s) << (TOP - s)
}

// The lesser of the places below the lowest bit of one word and of those above the highest of another.
fn nearer(above: u64, below: u64) -> usize
    ensures { result ≡ min (count_trailing_zeros 64 above) (count_leading_zeros 64 below) }
{
    above.trailing_zeros().min(below.leading_zeros()) as usize
}

// How far past n the nearer clear bit of p's row is, and 64 where it is not nearer than that.
fn gap_within(ws: &[u64], p: usize, n: usize) -> usize
    requires { (n ≤ p) × (p + n + 128 ≤ length ws.now * 64) × (length ws.now < length_limit) }
    ensures { GapWithin ws.now p n 64 result }
{
    nearer(!bits_at(ws, p + n), clear_below(ws, p - n))
}

// How far p lies from the nearest clear bit of its row; 0 where it is clear itself.
fn far_gap(ws: &[u64], p: usize) -> usize
    requires { Walled ws.now p }
    ensures { FirstClear (beside ws.now p) result }
{
    let mut n = 0;
    let mut k = gap_within(ws, p, 0);
    // A while: it ends at the word that has a clear bit, which the bits decide.
    while k == WORD {
        n += WORD;
        k = gap_within(ws, p, n);
    }
    n + k
}

// The same from one word around p, where it is below half a word.
fn near_gap(ws: &[u64], p: usize) -> usize
    requires { (32 ≤ p) × (p + 128 ≤ length ws.now * 64) × (length ws.now < length_limit) }
    ensures { GapWithin ws.now p 0 32 result }
{
    let clear = !bits_at(ws, p - HALF);
    nearer(clear >> HALF, clear << (HALF - 1))
}

// How far p lies from the nearest clear bit of its row, or the bound where none is nearer.
fn row_gap(ws: &[u64], p: usize, bound: usize) -> usize
    requires { Walled ws.now p }
    ensures { FirstWithin (beside ws.now p) bound result }
{
    if p >= HALF {
        let k = near_gap(ws, p).min(bound);
        if k < HALF {
            return k;
        }
    }
    far_gap(ws, p).min(bound)
}

// One more than the count at a neighbour, but 0 at a clear place.
fn count_on(v: u8, n: usize) -> usize
    requires { n < length_limit }
    ensures { result ≡ counted v n }
{
    if v == 0 {
        return 0;
    }
    n + 1
}

// The lesser of a byte and a count.
fn lesser(v: u8, n: usize) -> u8
    ensures { result ≡ min v n }
{
    usize::from(v).min(n) as u8
}

// Sets each place of the line to how far its bit lies from a clear one along its row or down the column, but to no more than a byte holds.
fn sides_line(ws: &[u64], w: usize, p: usize, line: &mut [u8])
    requires fact_1 { ColumnWalled ws.now w p (length line.old) }
    requires fact_2 { Ended ws.now w p (length line.old) }
    requires fact_3 { length line.old < length_limit }
    ensures { SidesDone ws.now w p line.old line.new }
{
    let mut n = 0;
    let mut q = p;
    for place in line.iter_mut() {
        let v = row_gap(ws, q, (n + 1).min(BYTE_MOST)) as u8;
        *place = v;
        n = count_on(v, n);
        q += w;
    }
}

// Lowers each place to the number of set places from it on.
fn fall(line: &mut [u8])
    requires { length line.old < length_limit }
    ensures { Fallen line.old line.new }
{
    let mut n = 0;
    for k in (0..line.len()).rev() {
        n = count_on(line[k], n);
        line[k] = lesser(line[k], n);
    }
}

// Sets each place of the line to how far its bit lies from a clear one; the bits are w apart, the first of them at p.
pub fn column_line(ws: &[u64], w: usize, p: usize, line: &mut [u8])
    requires fact_1 { ColumnWalled ws.now w p (length line.old) }
    requires fact_2 { Ended ws.now w p (length line.old) }
    requires fact_3 { ColumnEnds ws.now w p (length line.old) }
    requires fact_4 { length line.old < length_limit }
    ensures { ColumnDone ws.now w p line.old line.new }
{
    sides_line(ws, w, p, line);
    fall(line);
}
