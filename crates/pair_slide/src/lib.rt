// A piece slides along its strips until it conflicts with another by a gap: document 02, point 7. The contract speaks of the lent lists;
// proofs/Shapes.antt says what it comes to for the strips of a pixel set, and that sliding one piece on is sliding the other one back.
#![tactic(auto)]

ghost use Rattle.std.specs.Prelude.{◌≡◌, ◌&&◌, ◌+◌, ◌-◌, ◌<◌, ◌≤◌, ltb};
ghost use Rattle.model.specs.Bounded.{first_from};
ghost use Rattle.model.specs.Piece.{Point, Shape, along, across, point, gap_bound};
ghost use Rattle.model.specs.Overlap.{conflict};
ghost use Rattle.model.specs.declared.Direction.{Direction};
ghost use Rattle.pair_overlap.specs.Meet.{Ordered, Near};
ghost use Rattle.pair_overlap.specs.Seen.{entries};
ghost use Rattle.pair_slide.specs.Meeting.{meets_below};
ghost use Rattle.pair_slide.specs.Boxes.{OnSheet, BoxOf};

use model::StripEntry;
use pair_overlap::Corner;

// The most that one search for clear shifts goes to.
const SHIFT_BOUND: u32 = 1024;

// The least shift of the second piece along the strips at which some two strips are at most the gap apart, if it is below the bound, else the
// bound. One walk over the strips tells a whole stretch of shifts at which none are, as long as the nearest strip ahead is away, and the
// stretch is passed in one step: so the work grows with the strips and not with the pixels that the piece slides.
pub fn meets_below(
    a: &[StripEntry],
    u: Corner,
    b: &[StripEntry],
    v: Corner,
    gap: u32,
    bound: u32,
) -> u32
    requires fact_1 { Ordered a.now }
    requires fact_2 { Ordered b.now }
    requires fact_3 { Near u × ((v.along + bound ≤ 16384) × (v.across < 16384)) }
    requires fact_4 { gap ≤ gap_bound }
    ensures { result ≡ meets_below gap a.now u b.now v bound }
{
    let mut r = 0;
    // A while: each turn passes the stretch of shifts that its search found clear.
    while r < bound {
        let w = Corner {
            along: v.along + r,
            across: v.across,
        };
        let ahead = (bound - r).min(SHIFT_BOUND);
        let s = pair_overlap::clear_stretch(a, u, b, w, gap, ahead);
        if s.first != 0 {
            return r;
        }
        r += s.end;
    }
    r
}

// A placed piece's box as its strips' direction sees it: its corner, how far it reaches along the strips, and over how many lines.
#[derive(Clone, Copy)]
pub struct PlacedBox {
    pub corner: Corner,
    pub length: usize,
    pub lines: usize,
}

// Whether the stretch of m places from a on and the one of n places from b on are at most the gap apart.
pub fn spans_meet(a: usize, m: usize, b: usize, n: usize, gap: u32) -> bool
    requires fact_1 { (a ≤ 65535) × ((m ≤ 65535) × ((b ≤ 65535) × (n ≤ 65535))) }
    requires fact_2 { gap ≤ gap_bound }
    ensures { result ≡ (ltb a (b + n + gap) && ltb b (a + m + gap)) }
{
    let g = gap as usize;
    a < b + n + g && b < a + m + g
}

// How far the first of two placed pieces slides back along the strips before it conflicts with the second, if that is below the bound, else the
// bound. The strips are asked only where the box, as it sweeps back by the bound, comes within the gap of the other's.
pub fn room_before(
    a: &[StripEntry],
    p: PlacedBox,
    b: &[StripEntry],
    q: PlacedBox,
    gap: u32,
    bound: u32,
) -> u32
    requires fact_1 { Ordered a.now }
    requires fact_2 { Ordered b.now }
    requires fact_3 { OnSheet p × OnSheet q }
    requires fact_4 { (gap ≤ gap_bound) × (bound ≤ p.corner.along) }
    ensures { (d : Direction) (s : Shape) (u : Point) (t : Shape) (v : Point) → a.now ≡ entries d s → b.now ≡ entries d t → BoxOf d s u p → BoxOf d t v q → result ≡ first_from (λ m. conflict gap s (point d (along d u - 1 - m) (across d u)) t v) 0 bound }
{
    let u = p.corner;
    let v = q.corner;
    if !spans_meet(u.across as usize, p.lines, v.across as usize, q.lines, gap) {
        return bound;
    }
    let from = u.along - bound;
    if !spans_meet(
        from as usize,
        p.length + bound as usize,
        v.along as usize,
        q.length,
        gap,
    ) {
        return bound;
    }
    let next = Corner {
        along: v.along + 1,
        across: v.across,
    };
    meets_below(a, u, b, next, gap, bound)
}
