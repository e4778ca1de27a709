// Conflict of two placed pieces by a gap, from their strips: document 01, 'No-fit rows and penalty', and document 02, point 4. Every function
// here takes a stretch of strips for each piece, as (line, first, count) ordered by line, then first, all row strips or all column strips, and
// each piece's corner. Along their line, strips of both pieces are taken longer by the gap; lines at most the gap apart are walked as one line,
// one distance after another. The contracts speak of the lent lists; proofs/Shapes.antt says what they come to for the strips of a pixel set.
#![tactic(auto)]

ghost use Rattle.std.specs.Prelude.{◌≡◌, ◌<◌, ◌≤◌, length};
ghost use Rattle.model.specs.Piece.{gap_bound};
ghost use Rattle.pair_overlap.specs.Meet.{strip_at, base_of, Ordered, Near, NearShifted, shift_bound, SpanOf, Skipped, WalkBegun, Slid, ClearStretch, NextLine, clear_below, depth_below};

use model::StripEntry;

// How far the begin of a line lies from that of the next: more than any place along a line.
const LINE_STEP: u32 = 65536;

// The longest shift, the longest strip and the largest gap together.
const SHIFT_REACH: u32 = 1288;

// A piece's corner as its strips' direction sees it: the coordinate along them and the one across them.
#[derive(Clone, Copy)]
pub struct Corner {
    pub along: u32,
    pub across: u32,
}

// Where a placed strip begins and ends, in an order by line, then along: lines lie 65,536 apart.
#[derive(Clone, Copy)]
pub struct Span {
    pub begin: u32,
    pub end: u32,
}

// A place in each of two stretches.
#[derive(Clone, Copy)]
pub struct Heads {
    pub first: usize,
    pub second: usize,
}

// What a walk tells of the shifts of a piece: how far it has to go at least, and if that is 0, how far it may.
#[derive(Clone, Copy)]
pub struct Leeway {
    pub shift: u32,
    pub room: u32,
}

// Shifts from a first one up to an end.
#[derive(Clone, Copy)]
pub struct Shifts {
    pub first: u32,
    pub end: u32,
}

// A corner's part of a place in that order.
fn base(u: Corner) -> u32
    requires { NearShifted u }
    ensures { result ≡ base_of u }
{
    u.across * LINE_STEP + u.along
}

// The strip at i of a stretch whose piece's corner adds `from`, made longer by `spread`.
fn span_at(s: &[StripEntry], i: usize, from: u32, spread: u32) -> Span
    requires { (i < length s.now) × (from < 2000000000) × (spread ≤ gap_bound) }
    ensures { SpanOf (strip_at s.now i) from spread result }
{
    let begin = u32::from(s[i][0]) * LINE_STEP + u32::from(s[i][1]) + from;
    Span {
        begin,
        end: begin + u32::from(s[i][2]) + spread,
    }
}

// How many strips of a stretch lie in lines before a place, as far as jumps tell: a jump passes as many strips as lines are missing,
// so one is enough where each line has one strip. What is passed lies so far before the place that no shift brings it there.
fn skip(s: &[StripEntry], from: u32, place: u32) -> usize
    requires fact_1 { Ordered s.now }
    requires fact_2 { from < 2000000000 }
    ensures { Skipped s.now from place result }
{
    let mut i = 0;
    // A while: each turn passes as many strips as lines are missing.
    while i < s.len() {
        let p = span_at(s, i, from, 0);
        if place < p.begin {
            return i;
        }
        let lines = ((place - p.begin) / LINE_STEP) as usize;
        if lines == 0 {
            return i;
        }
        if s.len() - i < lines {
            return i;
        }
        let q = span_at(s, i + lines - 1, from, 0);
        if place < q.begin + SHIFT_REACH {
            return i;
        }
        i += lines;
    }
    i
}

// Where a walk over the two stretches begins: past strips in lines before the other's first.
fn walk_start(a: &[StripEntry], x: u32, b: &[StripEntry], y: u32) -> Heads
    requires fact_1 { Ordered a.now }
    requires fact_2 { Ordered b.now }
    requires fact_3 { (x < 1900000000) × (y < 1900000000) }
    ensures { WalkBegun a.now x b.now y result }
{
    if b.len() == 0 {
        // A piece has a strip: this does not happen.
        return Heads {
            first: 0,
            second: 0,
        };
    }
    let q = span_at(b, 0, y, 0);
    let first = skip(a, x, q.begin);
    if a.len() <= first {
        return Heads { first, second: 0 };
    }
    let p = span_at(a, first, x, 0);
    let second = skip(b, y, p.begin);
    Heads { first, second }
}

// How far the second piece has at least to be shifted along the strips until no two strips in one line are at most the gap apart, as far as
// one walk tells: each pair that is pushes it on, and the walk goes on with the shift so far. If there is none, the walk also tells how far the
// second piece may be shifted before one of its strips comes so near to the next one.
fn slide(a: &[StripEntry], u: Corner, b: &[StripEntry], v: Corner, gap: u32, limit: u32) -> Leeway
    requires fact_1 { Ordered a.now }
    requires fact_2 { Ordered b.now }
    requires fact_3 { NearShifted u × NearShifted v }
    requires fact_4 { (gap ≤ gap_bound) × (0 < limit) × (limit ≤ shift_bound) }
    ensures { Slid gap a.now u b.now v limit result }
{
    let x = base(u);
    let y = base(v);
    let start = walk_start(a, x, b, y);
    let mut t = 0;
    let mut room = limit - 1;
    let mut i = start.first;
    let mut j = start.second;
    // A while: it walks two stretches at once, and a turn goes on in one of them.
    while i < a.len() {
        if b.len() <= j {
            return Leeway { shift: t, room };
        }
        let p = span_at(a, i, x, gap);
        let q = span_at(b, j, y + t, gap);
        if p.end <= q.begin {
            i += 1;
        } else if q.end <= p.begin {
            room = room.min(p.begin - q.end);
            j += 1;
        } else {
            t += p.end - q.begin;
            if limit <= t {
                return Leeway { shift: limit, room };
            }
            i += 1;
        }
    }
    Leeway { shift: t, room }
}

// The number after k, 0 after the last of them.
fn next_line(k: u32, lines: u32) -> u32
    requires { (k < lines) × (lines < 65536) }
    ensures { NextLine k lines result }
{
    if k + 1 < lines {
        return k + 1;
    }
    0
}

// The least shift of the second piece along the strips at which no two strips are at most the gap apart, if it is below the bound, else the
// bound, and the shifts from it on at which the last walks find none. Lines are at most the gap apart when they are one line with the first
// piece raised by the gap and the second by one of 0, 1, .. twice the gap: each is walked until all are clear in turn at one shift.
pub fn clear_stretch(
    a: &[StripEntry],
    u: Corner,
    b: &[StripEntry],
    v: Corner,
    gap: u32,
    bound: u32,
) -> Shifts
    requires fact_1 { Ordered a.now }
    requires fact_2 { Ordered b.now }
    requires fact_3 { Near u × Near v }
    requires fact_4 { (gap ≤ gap_bound) × (bound ≤ shift_bound) }
    ensures { ClearStretch gap a.now u b.now v bound result }
{
    let lines = 2 * gap + 1;
    let mut r = 0;
    let mut room = bound;
    let mut k = 0;
    let mut left = lines;
    // A while: a turn either shifts the second piece on by what its walk asks for, or goes on to the next line.
    while r < bound {
        let raised = Corner {
            along: u.along,
            across: u.across + gap,
        };
        let w = Corner {
            along: v.along + r,
            across: v.across + k,
        };
        let s = slide(a, raised, b, w, gap, bound - r);
        if s.shift == 0 {
            room = room.min(s.room);
            left -= 1;
            if left == 0 {
                return Shifts {
                    first: r,
                    end: r + room + 1,
                };
            }
            k = next_line(k, lines);
        } else {
            r += s.shift;
            room = bound;
            left = lines;
        }
    }
    Shifts {
        first: bound,
        end: bound,
    }
}

// The least shift of the second piece along the strips at which no two strips are at most the gap apart, if it is below the bound, else the
// bound.
pub fn clear_below(
    a: &[StripEntry],
    u: Corner,
    b: &[StripEntry],
    v: Corner,
    gap: u32,
    bound: u32,
) -> u32
    requires fact_1 { Ordered a.now }
    requires fact_2 { Ordered b.now }
    requires fact_3 { Near u × Near v }
    requires fact_4 { (gap ≤ gap_bound) × (bound ≤ shift_bound) }
    ensures { result ≡ clear_below gap a.now u b.now v bound }
{
    let s = clear_stretch(a, u, b, v, gap, bound);
    s.first
}

// The depth along the strips if it is below the bound, else the bound: the least shift of either piece at which no two strips are at most the
// gap apart. The second search goes no farther than the first one found.
pub fn depth_below(
    a: &[StripEntry],
    u: Corner,
    b: &[StripEntry],
    v: Corner,
    gap: u32,
    bound: u32,
) -> u32
    requires fact_1 { Ordered a.now }
    requires fact_2 { Ordered b.now }
    requires fact_3 { Near u × Near v }
    requires fact_4 { (gap ≤ gap_bound) × (bound ≤ shift_bound) }
    ensures { result ≡ depth_below gap a.now u b.now v bound }
{
    let up = clear_below(a, u, b, v, gap, bound);
    clear_below(b, v, a, u, gap, up)
}
