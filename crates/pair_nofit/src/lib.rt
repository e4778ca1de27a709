// No-fit lines: at which shifts along their strips two pieces conflict by a gap. Document 01, 'No-fit rows and penalty', and document 02, point 4.
// A pass over the strips of matching lines for each distance of lines up to the gap; each strip of one with each strip of the other, both longer
// by the gap, gives an interval of shifts. Shifts are marked by a bit each (document 02, point 5), so that a line's marks are a few words and an
// interval is marked word by word and not place by place.
#![tactic(auto)]

ghost use Rattle.std.specs.Prelude.{ℕ, ◌+◌, ◌<◌, ◌≤◌, length};
ghost use Rattle.model.specs.Piece.{gap_bound};
ghost use Rattle.pair_overlap.specs.Meet.{strip_at, Ordered, Near, NearShifted};
ghost use Rattle.pair_nofit.specs.Marks.{Covers, Joined, ShiftsMarked, PlacedAt, WordBits, IntervalMarked, LineMarked, AllMarked, GapMarked, LineStart};

use model::StripEntry;
use pair_overlap::Corner;

// A word of set bits.
const ALL: u64 = 18446744073709551615;

// A strip of a placed piece: its line on the sheet, and where it begins and ends along the line.
#[derive(Clone, Copy)]
pub struct Placed {
    pub line: u32,
    pub begin: u32,
    pub end: u32,
}

// Shifts that are known to be marked: those from `low` up to and without `high`.
#[derive(Clone, Copy)]
pub struct Covered {
    pub low: u32,
    pub high: u32,
}

// The strip at i of a stretch, with the piece at the corner, made longer by `spread`.
fn placed_at(s: &[StripEntry], i: usize, u: Corner, spread: u32) -> Placed
    requires { (i < length s.now) × NearShifted u × (spread ≤ gap_bound) }
    ensures { PlacedAt (strip_at s.now i) u spread result }
{
    let begin = u32::from(s[i][1]) + u.along;
    Placed {
        line: u32::from(s[i][0]) + u.across,
        begin,
        end: begin + u32::from(s[i][2]) + spread,
    }
}

// The first strip from a place of the stretch on that lies in the given line of the sheet or a later one.
fn line_start(s: &[StripEntry], u: Corner, line: u32, from: usize) -> usize
    requires fact_1 { Ordered s.now }
    requires fact_2 { NearShifted u }
    requires fact_3 { from ≤ length s.now }
    ensures { LineStart s.now u.across line from result }
{
    for j in from..s.len() {
        let q = placed_at(s, j, u, 0);
        if line <= q.line {
            return j;
        }
    }
    s.len()
}

// The bits of the interval from `low` up to and without `high` in the word whose first place is `start`: all places from the later of the two
// beginnings on, and of these the ones before the nearer of the two ends. No shift is by a whole word, since some place of the word lies
// before `high` and some not before `low`.
fn word_bits(low: usize, high: usize, start: usize) -> u64
    requires { (low < start + 64) × (start < high) × (high < 4294967296) }
    ensures { WordBits low high start result }
{
    let from = low.max(start) - start;
    let past = start + 64 - high.min(start + 64);
    (ALL << from) & (ALL >> past)
}

// Marks the shifts from `low` up to and without `high`, as far as the words go. Word j has the places from 64 j on, so that only the words from that
// of `low` to that of the last place before `high` have any to be marked, and each has all of its own marked at once; an empty interval has none.
fn mark_interval(marks: &mut [u64], low: u32, high: u32)
    ensures { IntervalMarked low high marks.old marks.new }
{
    let first = low as usize;
    let end = high as usize;
    let words = marks.len().min((end + 63) / 64);
    for j in first / 64..words {
        marks[j] |= word_bits(first, end, j * 64);
    }
}

// What is known to be marked once an interval is marked too: both together where they touch, else the interval.
fn joined(covered: Covered, low: u32, high: u32) -> Covered
    ensures { Joined covered low high result }
{
    if high < covered.low {
        return Covered { low, high };
    }
    let apart = covered.high < low;
    if apart {
        return Covered { low, high };
    }
    Covered {
        low: covered.low.min(low),
        high: covered.high.max(high),
    }
}

// Marks an interval of shifts, and nothing where all of it is known to be marked: most intervals of a piece without holes lie in those before.
fn cover(marks: &mut [u64], covered: Covered, low: u32, high: u32) -> Covered
    requires { Covers covered marks.old }
    ensures marked { IntervalMarked low high marks.old marks.new }
    ensures covers { Covers result marks.new }
{
    if covered.low <= low {
        let within = high <= covered.high;
        if within {
            return covered;
        }
    }
    mark_interval(marks, low, high);
    joined(covered, low, high)
}

// Marks the intervals of strip i of the first piece with the strips of the second in its line, of which the first stands at `from`.
fn mark_line(
    a: &[StripEntry],
    i: usize,
    u: Corner,
    b: &[StripEntry],
    from: usize,
    v: Corner,
    gap: u32,
    known: Covered,
    marks: &mut [u64],
) -> Covered
    requires fact_1 { Ordered b.now }
    requires fact_2 { (i < length a.now) × (from ≤ length b.now) }
    requires fact_3 { NearShifted u × NearShifted v × (gap ≤ gap_bound) }
    requires fact_4 { ((l : ℕ) → from ≤ l → l < length b.now → (strip_at a.now i).line + u.across ≤ (strip_at b.now l).line + v.across) }
    requires fact_5 { Covers known marks.old }
    ensures marked { LineMarked gap a.now u b.now v i from marks.old marks.new }
    ensures covers { Covers result marks.new }
{
    let mut covered = known;
    for j in from..b.len() {
        let p = placed_at(a, i, u, gap);
        let q = placed_at(b, j, v, gap);
        if p.line < q.line {
            return covered;
        }
        let low = (p.begin + 1).saturating_sub(q.end);
        let high = p.end.saturating_sub(q.begin);
        covered = cover(marks, covered, low, high);
    }
    covered
}

// Marks the intervals of all strips of the two pieces that lie in one line.
fn mark_all(
    a: &[StripEntry],
    u: Corner,
    b: &[StripEntry],
    v: Corner,
    gap: u32,
    known: Covered,
    marks: &mut [u64],
) -> Covered
    requires fact_1 { Ordered a.now }
    requires fact_2 { Ordered b.now }
    requires fact_3 { NearShifted u × NearShifted v × (gap ≤ gap_bound) }
    requires fact_4 { Covers known marks.old }
    ensures marked { AllMarked gap a.now u b.now v marks.old marks.new }
    ensures covers { Covers result marks.new }
{
    let mut covered = known;
    let mut j = 0;
    for i in 0..a.len() {
        let p = placed_at(a, i, u, 0);
        j = line_start(b, v, p.line, j);
        covered = mark_line(a, i, u, b, j, v, gap, covered, marks);
    }
    covered
}

// Marks the intervals of all strips of the two pieces in lines at most the gap apart: these are one line with the first piece raised by the gap
// and the second by one of 0, 1, .. twice the gap.
fn mark_lines(a: &[StripEntry], u: Corner, b: &[StripEntry], v: Corner, gap: u32, marks: &mut [u64])
    requires fact_1 { Ordered a.now }
    requires fact_2 { Ordered b.now }
    requires fact_3 { Near u × Near v × (gap ≤ gap_bound) }
    ensures { GapMarked gap a.now u b.now v marks.old marks.new }
{
    let lines = 2 * gap + 1;
    let mut covered = Covered { low: 0, high: 0 };
    for k in 0..lines {
        let p = Corner {
            along: u.along,
            across: u.across + gap,
        };
        let q = Corner {
            along: v.along,
            across: v.across + k,
        };
        covered = mark_all(a, p, b, q, gap, covered, marks);
    }
}

// Marks the shifts 0, 1, .. of the second piece along the strips, as many as the words have bits: set where they conflict by the gap, else clear.
pub fn mark_shifts(
    a: &[StripEntry],
    u: Corner,
    b: &[StripEntry],
    v: Corner,
    gap: u32,
    marks: &mut [u64],
)
    requires fact_1 { Ordered a.now }
    requires fact_2 { Ordered b.now }
    requires fact_3 { Near u × Near v × (gap ≤ gap_bound) }
    ensures { ShiftsMarked gap a.now u b.now v marks.old marks.new }
{
    marks.fill(0);
    mark_lines(a, u, b, v, gap, marks);
}
