// The strips of a piece, added to the marks of another: a string of bits takes over the other piece's marks, moved up by each pixel of the
// strips. Rows of the string are w bits wide, and pixel (along, across) stands at across * w + along.
#![tactic(auto)]

ghost use Rattle.std.specs.Prelude.{◌≡◌, ◌^◌, ◌<◌, ◌≤◌, length};
ghost use Rattle.pair_overlap.specs.Meet.{strip_at};
ghost use Rattle.search_words.specs.Words.{StripMarked};
ghost use Rattle.search_levels.specs.Levels.{Levels, level_of};
ghost use Rattle.search_marks.specs.Marks.{LevelOf, SpanOf, SpanFits, StripsFit, Made, width_limit};

use model::StripEntry;

// A strip in a string of bits: its place and its pixels.
#[derive(Clone, Copy)]
pub struct Span {
    pub place: usize,
    pub count: usize,
}

// The level of the largest power of two up to the count.
pub fn level_of(count: usize) -> usize
    requires { (1 ≤ count) × (count < 512) }
    ensures { LevelOf count result }
{
    63 - u64::leading_zeros(count as u64) as usize
}

// A power of two.
fn power(k: usize) -> usize
    requires { k < 9 }
    ensures { result ≡ 2 ^ k }
{
    1 << k
}

// The strip at i, in a string whose rows are w bits wide, `up` rows up.
fn span_at(es: &[StripEntry], i: usize, w: usize, up: usize) -> Span
    requires { (i < length es.now) × (w < width_limit) × (up ≤ 1) }
    ensures { SpanOf (strip_at es.now i) w up result }
{
    let [line, first, count] = es[i];
    Span {
        place: (usize::from(line) + up) * w + usize::from(first),
        count: usize::from(count),
    }
}

// The string takes over the marks of one strip.
fn add_strip(to: &mut [u64], marks: &[u64], size: usize, levels: usize, span: Span)
    requires fact_1 { Levels marks.now size levels }
    requires fact_2 { SpanFits size levels (length to.old) span }
    ensures { StripMarked to.old (level_of marks.now size 0) span.place span.count to.new }
{
    let k = level_of(span.count);
    let n = power(k);
    let from = k * size;
    let end = from + size;
    search_words::or_strip(to, &marks[from..end], n, span.place, span.count);
}

// The string takes over the marks of every strip of a piece.
pub fn add_strips(
    to: &mut [u64],
    marks: &[u64],
    size: usize,
    levels: usize,
    es: &[StripEntry],
    w: usize,
    up: usize,
)
    requires fact_1 { Levels marks.now size levels }
    requires fact_2 { StripsFit w up size levels (length to.old) es.now }
    requires fact_3 { (w < width_limit) × (up ≤ 1) }
    ensures { Made to.old (level_of marks.now size 0) es.now w up (length es.now) to.new }
{
    for i in 0..es.len() {
        let span = span_at(es, i, w, up);
        add_strip(to, marks, size, levels, span);
    }
}
