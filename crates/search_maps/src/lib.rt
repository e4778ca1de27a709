// The map of a moved piece and a standing one: one bit for each offset of their corners at which the boxes meet, set exactly where the
// pieces share a pixel. Such an offset is a pixel of the standing piece plus a pixel of the moved piece turned by half, so the map is made
// by adding the one's strips to the other's marks. specs/Map.antt says where a bit stands. One code for rows and columns: strips of
// rows make the map that is read along rows. Pieces that are to keep a gap make the map of the moved piece grown by twice the gap: its marks
// are moved up by so many pixels and rows as well.
#![tactic(auto)]

ghost use Rattle.std.specs.Prelude.{◌≡◌, ◌+◌, ◌*◌, ◌<◌, ◌≤◌, length};
ghost use Rattle.model.specs.Piece.{Shape, turned};
ghost use Rattle.model.specs.declared.Direction.{Direction};
ghost use Rattle.model.specs.declared.Turn.TheVariants.{Half};
ghost use Rattle.overlap_laws.specs.Grown.{grown};
ghost use Rattle.pair_overlap.specs.Seen.{entries};
ghost use Rattle.search_levels.specs.Levels.{Levels, level_bound, level_of};
ghost use Rattle.search_marks.specs.Marks.{StripsFit, width_limit};
ghost use Rattle.search_maps.specs.Map.{opposite, sides_of, row_width, mark_words, map_words, scratch_words, extra_limit, SidesFit, StripsIn, MovedIn, ScratchRoom, MapRoom, MapOf};
ghost use Rattle.search_maps.specs.Making.{point_size, Points, StripPoint, MarksMade, MarksGrown, LevelsMade, LevelsFor, MapFilled};

use model::{StripEntry, Turn};
use search_levels::LEVELS;

// The most pixels along a box side that maps are made for: pieces widened by a gap have room.
pub const SIDE_LIMIT: usize = 271;

// The words of scratch that are enough for every map.
pub const SCRATCH_WORDS: usize = 20676;

// The words of the largest map.
pub const MAP_WORDS: usize = 4601;

// The words of one mark, widened to a level of it, and of all levels.
const POINT_SIZE: usize = 5;

const POINT_WORDS: usize = LEVELS * POINT_SIZE;

// The box sides of two pieces, along the direction and across it.
#[derive(Clone, Copy)]
pub struct Sides {
    pub moved_along: usize,
    pub moved_across: usize,
    pub standing_along: usize,
    pub standing_across: usize,
}

// The turn in which the strips of a moved piece are lent: half a turn further.
pub fn opposite_turn(turn: Turn) -> Turn
    ensures { result ≡ opposite turn }
{
    match turn {
        Turn::Zero => Turn::Half,
        Turn::Quarter => Turn::ThreeQuarters,
        Turn::Half => Turn::Zero,
        Turn::ThreeQuarters => Turn::Quarter,
    }
}

// The bits of a row of a map: its cells and one clear bit.
pub fn row_width(sides: Sides) -> usize
    requires { SidesFit sides }
    ensures { result ≡ row_width sides }
{
    sides.moved_along + sides.standing_along
}

// The words of the moved piece's marks, at a level.
fn mark_words(sides: Sides) -> usize
    requires { SidesFit sides }
    ensures { result ≡ mark_words sides }
{
    sides.moved_across * row_width(sides) / 64 + 2
}

// The words of scratch that the map of two pieces is made with.
pub fn scratch_words(sides: Sides) -> usize
    requires { SidesFit sides }
    ensures { result ≡ scratch_words sides }
{
    LEVELS * mark_words(sides) + 3
}

// The words of a map.
pub fn map_words(sides: Sides) -> usize
    requires { SidesFit sides }
    ensures { result ≡ map_words sides }
{
    (sides.moved_across + sides.standing_across + 1) * row_width(sides) / 64 + 3
}

// One mark, at 0, and its levels: what strips are added to where they alone are to be marked.
fn point_levels() -> [u64; POINT_WORDS]
    ensures { Points result }
{
    let mut points = [0u64; POINT_WORDS];
    points[0] = 1;
    search_levels::widen_levels(&mut points, POINT_SIZE, LEVELS);
    points
}

// Marks the pixels of a piece's strips in the first words, in rows of w bits.
fn make_marks(scratch: &mut [u64], es: &[StripEntry], w: usize, size: usize)
    requires fact_1 { size ≤ length scratch.old }
    requires fact_2 { StripsFit w 0 point_size level_bound (length scratch.old) es.now }
    requires fact_3 { w < width_limit }
    ensures { MarksMade (StripPoint es.now) w size scratch.old scratch.new }
{
    let points = point_levels();
    search_words::clear_words(scratch, size);
    search_marks::add_strips(scratch, &points, POINT_SIZE, LEVELS, es, w, 0);
}

// Grows the marks in the first words, in rows of w bits, by `extra` pixels to the right and by as many rows up.
fn grow_marks(scratch: &mut [u64], w: usize, size: usize, extra: usize)
    requires { (size ≤ length scratch.old) × (w < width_limit) × (extra ≤ extra_limit) }
    ensures { MarksGrown w size extra scratch.old scratch.new }
{
    search_words::grow(scratch, size, 1, extra + 1);
    search_words::grow(scratch, size, w, extra + 1);
}

// Marks the pixels of the moved piece grown by `extra`, and widens them.
fn make_levels(scratch: &mut [u64], moved: &[StripEntry], sides: Sides, extra: usize, levels: usize)
    requires fact_1 { SidesFit sides }
    requires fact_2 { MovedIn sides extra moved.now }
    requires fact_3 { ScratchRoom sides (length scratch.old) }
    requires fact_4 { LevelsFor sides.standing_along levels }
    ensures { LevelsMade moved.now sides extra levels scratch.new }
{
    let w = row_width(sides);
    let size = mark_words(sides);
    make_marks(scratch, moved, w, size);
    grow_marks(scratch, w, size, extra);
    search_levels::widen_levels(scratch, size, levels);
}

// Adds the standing piece's strips to the marks, in cleared words.
fn fill_map(words: &mut [u64], marks: &[u64], standing: &[StripEntry], sides: Sides, levels: usize)
    requires fact_1 { SidesFit sides }
    requires fact_2 { StripsIn sides.standing_along sides.standing_across standing.now }
    requires fact_3 { LevelsFor sides.standing_along levels }
    requires fact_4 { Levels marks.now (mark_words sides) levels }
    requires fact_5 { MapRoom sides (length words.old) }
    ensures { MapFilled standing.now sides (level_of marks.now (mark_words sides) 0) words.old words.new }
{
    let w = row_width(sides);
    let size = mark_words(sides);
    search_words::clear_words(words, map_words(sides));
    search_marks::add_strips(words, marks, size, levels, standing, w, 1);
}

// Makes the map of a moved piece grown by `extra` and a standing one as it is; the sides are those of the grown one. The moved piece's strips are
// lent as they are before it grows, and in the opposite turn.
pub fn make_map(
    moved: &[StripEntry],
    standing: &[StripEntry],
    sides: Sides,
    extra: usize,
    scratch: &mut [u64],
    words: &mut [u64],
)
    requires fact_1 { SidesFit sides }
    requires fact_2 { MovedIn sides extra moved.now }
    requires fact_3 { StripsIn sides.standing_along sides.standing_across standing.now }
    requires fact_4 { ScratchRoom sides (length scratch.old) }
    requires fact_5 { MapRoom sides (length words.old) }
    ensures { (d : Direction) (s t : Shape) → sides ≡ sides_of d (grown extra s) t → moved.now ≡ entries d (turned Half s) → standing.now ≡ entries d t → MapOf d (grown extra s) t words.new }
{
    let levels = search_marks::level_of(sides.standing_along) + 1;
    make_levels(scratch, moved, sides, extra, levels);
    fill_map(words, scratch, standing, sides, levels);
}
