// Penalty lines, made once and kept as long as they are right: see specs/Kept.antt. A search asks for the line of a moved piece and a
// standing one; most lines survive many moves, so most are found. A line that is not kept is read from the map of the two pieces' classes, the
// one of the lower number moved and in no turn: see specs/Sources.antt.
#![tactic(auto)]

ghost use Rattle.std.specs.Prelude.{◌≡◌, List, true, ℕ, ◌+◌, ◌-◌, ◌*◌, ◌<◌, ◌≤◌, length};
ghost use Rattle.model.specs.Layout.{turned_piece};
ghost use Rattle.model.specs.Lent.{lent_by, job_of, lent_well, gap_bound};
ghost use Rattle.model.specs.declared.JobSize.{JobSize};
ghost use Rattle.model.specs.declared.Direction.TheVariants.{Horizontal};
ghost use Rattle.overlap_laws.specs.Grown.{grown};
ghost use Rattle.search_laws.specs.Lines.{line_places, HoldsLine};
ghost use Rattle.bit_laws.specs.Bit.{length_limit};
ghost use Rattle.search_maps.specs.Map.{extra_limit, sides_of};
ghost use Rattle.search_lines.specs.Kept.{map_slots, least_maps, MapsReady, LinesKept, LinesFit, direction_number, key_at, key_bytes, lines_bound};
ghost use Rattle.search_lines.specs.Making.{moved_shape, standing_shape, key_of_two, map_key_of_two, SmallTwo, Asked, MapFound, LineMade, KeyPut, UnitsFit, Backwards, exchanged_two};
ghost use Rattle.search_lines.specs.Sources.{Named, classed_two, turned_two, mirrored_offset, plain_source, back_source, quarter_source, source_places, SameLine, SourceMade};
ghost use Rattle.search_map_laws.specs.Turns.{turn_before};

use model::{Direction, JobSize, PIECE_BOUND, PieceEntry, StripEntry, Turn};
use search_line_store::{UNIT, begin_of, claim, units_of};
use search_maps::Sides;

// Where the moved piece's corner stands across: no offset of a standing one that matters is below 0.
pub const MIDDLE: usize = search_map_lines::MIDDLE;

// Twice the middle: an offset and its mirrored one come to it.
const MIRROR: usize = 2 * MIDDLE;

// More than the places of any line.
const LINE_LENGTH: usize = 526;

// The shapes of a job: each piece in four turns.
const SHAPES: usize = 4 * PIECE_BOUND;

// The words of the classes, before the maps: one for each piece.
const CLASS_WORDS: usize = PIECE_BOUND;

// The slots of a store of maps: for each two pieces, and one with itself, and each turn of the standing one.
const MAP_SLOTS: usize = PIECE_BOUND * (PIECE_BOUND + 1) * 2;

// The least words of a store of maps: classes, slots, the end, and room to make every map. The longest scratch is longer than the largest
// map.
pub const LEAST_MAPS: usize = CLASS_WORDS + MAP_SLOTS + 1 + search_maps::SCRATCH_WORDS;

// Every offset that a key holds is below it.
const OFFSETS: usize = 1024;

// The keys of one moved piece in a turn: each standing one in a turn, at each offset.
const KEYS: usize = 4 * PIECE_BOUND * OFFSETS;

// The keys of one direction: each moved piece in a turn.
const DIRECTION_KEYS: usize = 4 * PIECE_BOUND * KEYS;

// The slots that one direction asks for: each moved piece in a turn beside each standing one.
const DIRECTION_SLOTS: usize = 4 * PIECE_BOUND * PIECE_BOUND;

// The slots of a run: with so many, no two lines ask for one slot but those of the same two pieces.
pub const RUN_SLOTS: usize = 2 * DIRECTION_SLOTS;

// The bytes of a stretch before its line: they hold its key.
const KEY_BYTES: usize = 4;

// The most bytes of the stretch of a line.
const LINE_STRETCH: usize = (KEY_BYTES + LINE_LENGTH + UNIT - 1) / UNIT * UNIT;

// The least bytes of a store of lines with one slot: room for every line, one at a time.
pub const LEAST_LINES: usize = search_line_store::SLOT_BYTES
    + search_line_store::TABLE_REST
    + LINE_STRETCH;

// The sizes of a run: its job's, and how many slots its store of lines has.
#[derive(Clone, Copy)]
pub struct RunSize {
    pub size: JobSize,
    pub slots: usize,
}

// Two pieces in their turns, and the standing one's offset across the line: MIDDLE where both corners are on one line.
#[derive(Clone, Copy)]
pub struct Two {
    pub moved: usize,
    pub moved_turn: Turn,
    pub standing: usize,
    pub standing_turn: Turn,
    pub offset: usize,
}

// The line of two pieces along a direction, read forwards or backwards.
#[derive(Clone, Copy)]
pub struct Source {
    pub two: Two,
    pub direction: Direction,
    pub back: bool,
}

// The number by which keys and slots tell directions apart.
fn direction_number(direction: Direction) -> usize
    ensures { (result ≡ direction_number direction) × (result ≤ 1) }
{
    match direction {
        Direction::Horizontal => 0,
        Direction::Vertical => 1,
    }
}

// The key of two pieces in their turns, a direction and an offset.
fn key_of(direction: Direction, two: Two) -> u32
    requires { SmallTwo two }
    ensures { result ≡ key_of_two direction two }
{
    let moved_turn = two.moved_turn;
    let standing_turn = two.standing_turn;
    let d = direction_number(direction);
    let a = search_shapes::shape_number(two.moved, moved_turn);
    let b = search_shapes::shape_number(two.standing, standing_turn);
    (d * DIRECTION_KEYS + a * KEYS + b * OFFSETS + two.offset) as u32
}

// The slot of two pieces: one for each direction, moved piece in a turn and standing piece, as far as there are slots.
fn slot_of(direction: Direction, two: Two, slots: usize) -> usize
    requires { SmallTwo two × (0 < slots) }
    ensures { result < slots }
{
    let turn = two.moved_turn;
    let d = direction_number(direction);
    let shape = search_shapes::shape_number(two.moved, turn);
    (d * DIRECTION_SLOTS + shape * PIECE_BOUND + two.standing) % slots
}

// The key that stands at a place of the store.
fn key_at(lines: &[u8], at: usize) -> u32
    requires { (at + key_bytes ≤ length lines.now) × (length lines.now ≤ lines_bound) }
    ensures { result ≡ key_at lines.now at }
{
    let low = u32::from(lines[at]) + u32::from(lines[at + 1]) * 256;
    let high = u32::from(lines[at + 2]) + u32::from(lines[at + 3]) * 256;
    low + high * 65536
}

// Puts a key at a place of the store.
fn put_key(lines: &mut [u8], at: usize, key: u32)
    requires { (at + key_bytes ≤ length lines.old) × (length lines.old ≤ lines_bound) }
    ensures { KeyPut key at lines.old lines.new }
{
    lines[at] = (key % 256) as u8;
    lines[at + 1] = (key / 256 % 256) as u8;
    lines[at + 2] = (key / 65536 % 256) as u8;
    lines[at + 3] = (key / 16777216) as u8;
}

// The box sides of two pieces, along rows and across them, each grown by its number.
fn grown_sides(table: &[PieceEntry], two: Two, moved_by: usize, standing_by: usize) -> Sides
    requires fact_1 { (two.moved < length table.now) × (two.standing < length table.now) }
    requires fact_2 { (moved_by ≤ extra_limit) × (standing_by ≤ extra_limit) }
    ensures { (size : JobSize) (pixels : List ℕ) → result ≡ sides_of Horizontal (grown moved_by (turned_piece (job_of (lent_by size table.now pixels)) two.moved two.moved_turn)) (grown standing_by (turned_piece (job_of (lent_by size table.now pixels)) two.standing two.standing_turn)) }
{
    let moved_turn = two.moved_turn;
    let standing_turn = two.standing_turn;
    let moved = piece_pixels::turned_sides(table, two.moved, moved_turn);
    let standing = piece_pixels::turned_sides(table, two.standing, standing_turn);
    Sides {
        moved_along: moved.columns + moved_by,
        moved_across: moved.rows + moved_by,
        standing_along: standing.columns + standing_by,
        standing_across: standing.rows + standing_by,
    }
}

// The box sides of two pieces, grown by the gap.
fn sides_of(size: JobSize, table: &[PieceEntry], two: Two) -> Sides
    requires { (two.moved < length table.now) × (two.standing < length table.now) × (size.gap ≤ gap_bound) }
    ensures { (pixels : List ℕ) → result ≡ sides_of Horizontal (moved_shape (lent_by size table.now pixels) two) (standing_shape (lent_by size table.now pixels) two) }
{
    grown_sides(table, two, size.gap, size.gap)
}

// The key of two pieces' map.
fn map_key(two: Two) -> usize
    requires { SmallTwo two }
    ensures { (result ≡ map_key_of_two two) × (result < 65536) }
{
    let moved_turn = two.moved_turn;
    let standing_turn = two.standing_turn;
    let a = search_shapes::shape_number(two.moved, moved_turn);
    let b = search_shapes::shape_number(two.standing, standing_turn);
    a * SHAPES + b
}

// The slot of their map: one for each two pieces, the moved one's number not above the other's, and each turn of the standing one. The maps that are
// kept are such, with the moved piece in no turn.
fn map_slot(two: Two) -> usize
    requires { SmallTwo two }
    ensures { result < map_slots }
{
    let turn = two.standing_turn;
    let before = two.standing * (two.standing + 1) / 2;
    search_shapes::shape_number(before + two.moved, turn)
}

// Readies a store for a job, whatever it holds: the classes of the job's pieces, and no map.
pub fn ready_maps(size: JobSize, table: &[PieceEntry], pixels: &[u8], maps: &mut [u64])
    requires fact_1 { lent_well (lent_by size table.now pixels.now) ≡ true }
    requires fact_2 { (least_maps ≤ length maps.old) × (length maps.old < length_limit) }
    ensures { MapsReady (job_of (lent_by size table.now pixels.now)) maps.new }
{
    search_classes::put_classes(size, table, pixels, maps);
    let from = CLASS_WORDS;
    search_map_store::forget_maps(&mut maps[from..], MAP_SLOTS);
}

// Where the map of two pieces begins. It is made where it is not kept, of the moved piece grown by twice the gap, which is the map of both grown by
// the gap: the strips are those of the pieces as they are.
fn find_map(
    size: JobSize,
    table: &[PieceEntry],
    pixels: &[u8],
    strips: &[StripEntry],
    starts: &[u32],
    two: Two,
    maps: &mut [u64],
) -> usize
    requires fact_1 { Asked (lent_by size table.now pixels.now) strips.now starts.now two }
    requires fact_2 { MapsReady (job_of (lent_by size table.now pixels.now)) maps.old }
    ensures { MapFound (job_of (lent_by size table.now pixels.now)) (moved_shape (lent_by size table.now pixels.now) two) (standing_shape (lent_by size table.now pixels.now) two) maps.old maps.new result }
{
    let moved_turn = two.moved_turn;
    let standing_turn = two.standing_turn;
    let opposite = search_maps::opposite_turn(moved_turn);
    let a = search_shapes::shape_strips(strips, starts, two.moved, opposite);
    let b = search_shapes::shape_strips(strips, starts, two.standing, standing_turn);
    let extra = size.gap + size.gap;
    let sides = grown_sides(table, two, extra, 0);
    let key = map_key(two);
    let slot = map_slot(two);
    let from = CLASS_WORDS;
    let at = search_map_store::keep_map(
        a,
        b,
        sides,
        extra,
        key,
        slot,
        MAP_SLOTS,
        &mut maps[from..],
    );
    from + at
}

// Makes the line of two pieces from their own map, from a place on; gives its number of places.
fn draw_line(
    size: JobSize,
    table: &[PieceEntry],
    pixels: &[u8],
    direction: Direction,
    strips: &[StripEntry],
    starts: &[u32],
    two: Two,
    at: usize,
    lines: &mut [u8],
    maps: &mut [u64],
) -> usize
    requires fact_1 { Asked (lent_by size table.now pixels.now) strips.now starts.now two }
    requires fact_2 { at + line_places direction (moved_shape (lent_by size table.now pixels.now) two) (standing_shape (lent_by size table.now pixels.now) two) ≤ length lines.old }
    requires fact_3 { length lines.old ≤ lines_bound }
    requires fact_4 { MapsReady (job_of (lent_by size table.now pixels.now)) maps.old }
    ensures line { LineMade direction (moved_shape (lent_by size table.now pixels.now) two) (standing_shape (lent_by size table.now pixels.now) two) two.offset lines.old at lines.new }
    ensures maps { MapsReady (job_of (lent_by size table.now pixels.now)) maps.new }
    ensures count { result ≡ line_places direction (moved_shape (lent_by size table.now pixels.now) two) (standing_shape (lent_by size table.now pixels.now) two) }
{
    let sides = sides_of(size, table, two);
    let from = find_map(size, table, pixels, strips, starts, two, maps);
    let to = from + search_maps::map_words(sides);
    let count = search_map_lines::line_places(direction, sides);
    let end = at + count;
    search_map_lines::map_line(
        direction,
        &maps[from..to],
        sides,
        two.offset,
        &mut lines[at..end],
    );
    count
}

// The two pieces with their parts exchanged: what moved stands, at the mirrored offset. At 0 and from
// MIRROR on the boxes do not meet, so that an offset that would be below 0 may be 0.
fn exchanged(two: Two) -> Two
    ensures { result ≡ exchanged_two two }
{
    let moved_turn = two.moved_turn;
    let standing_turn = two.standing_turn;
    Two {
        moved: two.standing,
        moved_turn: standing_turn,
        standing: two.moved,
        standing_turn: moved_turn,
        offset: less(MIRROR, two.offset),
    }
}

// How far the first number is above the second.
fn less(x: usize, y: usize) -> usize
    ensures { result ≡ x - y }
{
    if x < y {
        return 0;
    }
    x - y
}

// Copies a line backwards.
fn copy_back(from: &[u8], to: &mut [u8])
    requires { length to.old ≡ length from.now }
    ensures { Backwards from.now to.new }
{
    to.copy_from_slice(from);
    to.reverse();
}

// The turn that is a quarter turn less.
fn turn_before(turn: Turn) -> Turn
    ensures { result ≡ turn_before turn }
{
    match turn {
        Turn::Zero => Turn::ThreeQuarters,
        Turn::Quarter => Turn::Zero,
        Turn::Half => Turn::Quarter,
        Turn::ThreeQuarters => Turn::Half,
    }
}

// The two pieces, both turned back by a quarter, at an offset.
fn turned_two(two: Two, offset: usize) -> Two
    ensures { result ≡ turned_two two offset }
{
    let moved_turn = two.moved_turn;
    let standing_turn = two.standing_turn;
    Two {
        moved: two.moved,
        moved_turn: turn_before(moved_turn),
        standing: two.standing,
        standing_turn: turn_before(standing_turn),
        offset,
    }
}

// The offset of two pieces beside a column, when the sheet is turned back by a quarter: it is counted from the other side of the boxes.
fn mirrored_offset(size: JobSize, table: &[PieceEntry], pixels: &[u8], two: Two) -> usize
    requires { Named (lent_by size table.now pixels.now) two }
    ensures { result ≡ mirrored_offset (lent_by size table.now pixels.now) two }
{
    let sides = sides_of(size, table, two);
    less(
        MIRROR + sides.moved_along,
        sides.standing_along + two.offset,
    )
}

// The same line from both pieces turned back by a quarter: along the other direction, backwards or at the mirrored offset.
fn quarter_back(size: JobSize, table: &[PieceEntry], pixels: &[u8], source: Source) -> Source
    requires { Named (lent_by size table.now pixels.now) source.two }
    ensures { result ≡ quarter_source (lent_by size table.now pixels.now) source }
{
    let two = source.two;
    let direction = source.direction;
    match direction {
        Direction::Horizontal => Source {
            two: turned_two(two, two.offset),
            direction: Direction::Vertical,
            back: !source.back,
        },
        Direction::Vertical => Source {
            two: turned_two(two, mirrored_offset(size, table, pixels, two)),
            direction: Direction::Horizontal,
            back: source.back,
        },
    }
}

// The same line from both pieces turned back by half.
fn half_back(size: JobSize, table: &[PieceEntry], pixels: &[u8], source: Source) -> Source
    requires { Named (lent_by size table.now pixels.now) source.two }
    ensures { SameLine (lent_by size table.now pixels.now) source result }
{
    let once = quarter_back(size, table, pixels, source);
    quarter_back(size, table, pixels, once)
}

// The same line with the moved piece in no turn.
fn straight(size: JobSize, table: &[PieceEntry], pixels: &[u8], source: Source) -> Source
    requires { Named (lent_by size table.now pixels.now) source.two }
    ensures { SameLine (lent_by size table.now pixels.now) source result }
{
    let two = source.two;
    let turn = two.moved_turn;
    match turn {
        Turn::Zero => source,
        Turn::Quarter => quarter_back(size, table, pixels, source),
        Turn::Half => half_back(size, table, pixels, source),
        Turn::ThreeQuarters => {
            let twice = half_back(size, table, pixels, source);
            quarter_back(size, table, pixels, twice)
        }
    }
}

// The line of two pieces, with the piece of the lower number moved: that of the two exchanged is the same backwards.
fn ordered(
    size: JobSize,
    table: &[PieceEntry],
    pixels: &[u8],
    direction: Direction,
    two: Two,
) -> Source
    requires { Named (lent_by size table.now pixels.now) two }
    ensures { SameLine (lent_by size table.now pixels.now) (plain_source direction two) result }
{
    if two.standing < two.moved {
        return Source {
            two: exchanged(two),
            direction,
            back: true,
        };
    }
    Source {
        two,
        direction,
        back: false,
    }
}

// Makes the line of two pieces backwards.
fn draw_back(
    size: JobSize,
    table: &[PieceEntry],
    pixels: &[u8],
    direction: Direction,
    strips: &[StripEntry],
    starts: &[u32],
    two: Two,
    at: usize,
    lines: &mut [u8],
    maps: &mut [u64],
)
    requires fact_1 { Asked (lent_by size table.now pixels.now) strips.now starts.now two }
    requires fact_2 { at + line_places direction (moved_shape (lent_by size table.now pixels.now) two) (standing_shape (lent_by size table.now pixels.now) two) ≤ length lines.old }
    requires fact_3 { length lines.old ≤ lines_bound }
    requires fact_4 { MapsReady (job_of (lent_by size table.now pixels.now)) maps.old }
    ensures line { SourceMade (lent_by size table.now pixels.now) (back_source direction two) lines.old at lines.new }
    ensures maps { MapsReady (job_of (lent_by size table.now pixels.now)) maps.new }
{
    let mut drawn = [0u8; LINE_LENGTH];
    let count = draw_line(
        size, table, pixels, direction, strips, starts, two, 0, &mut drawn, maps,
    );
    let end = at + count;
    copy_back(&drawn[..count], &mut lines[at..end]);
}

// Makes the line of a source, from a place of the store on.
fn draw_source(
    size: JobSize,
    table: &[PieceEntry],
    pixels: &[u8],
    strips: &[StripEntry],
    starts: &[u32],
    source: Source,
    at: usize,
    lines: &mut [u8],
    maps: &mut [u64],
)
    requires fact_1 { Asked (lent_by size table.now pixels.now) strips.now starts.now source.two }
    requires fact_2 { at + source_places (lent_by size table.now pixels.now) source ≤ length lines.old }
    requires fact_3 { length lines.old ≤ lines_bound }
    requires fact_4 { MapsReady (job_of (lent_by size table.now pixels.now)) maps.old }
    ensures line { SourceMade (lent_by size table.now pixels.now) source lines.old at lines.new }
    ensures maps { MapsReady (job_of (lent_by size table.now pixels.now)) maps.new }
{
    let two = source.two;
    let direction = source.direction;
    if source.back {
        draw_back(
            size, table, pixels, direction, strips, starts, two, at, lines, maps,
        );
        return;
    }
    draw_line(
        size, table, pixels, direction, strips, starts, two, at, lines, maps,
    );
}

// The two pieces' classes in their turns, at the offset.
fn classed(two: Two, classes: &[u64]) -> Two
    requires { (two.moved < length classes.now) × (two.standing < length classes.now) }
    ensures { result ≡ classed_two classes.now two }
{
    let moved = two.moved;
    let moved_turn = two.moved_turn;
    let standing = two.standing;
    let standing_turn = two.standing_turn;
    Two {
        moved: classes[moved] as usize,
        moved_turn,
        standing: classes[standing] as usize,
        standing_turn,
        offset: two.offset,
    }
}

// Makes the line of two pieces, from a place of the store on. One map serves all pieces equal to the two, both orders of them and all turns of both
// together.
fn make_line(
    size: JobSize,
    table: &[PieceEntry],
    pixels: &[u8],
    direction: Direction,
    strips: &[StripEntry],
    starts: &[u32],
    two: Two,
    at: usize,
    lines: &mut [u8],
    maps: &mut [u64],
)
    requires fact_1 { Asked (lent_by size table.now pixels.now) strips.now starts.now two }
    requires fact_2 { at + line_places direction (moved_shape (lent_by size table.now pixels.now) two) (standing_shape (lent_by size table.now pixels.now) two) ≤ length lines.old }
    requires fact_3 { length lines.old ≤ lines_bound }
    requires fact_4 { MapsReady (job_of (lent_by size table.now pixels.now)) maps.old }
    ensures line { LineMade direction (moved_shape (lent_by size table.now pixels.now) two) (standing_shape (lent_by size table.now pixels.now) two) two.offset lines.old at lines.new }
    ensures maps { MapsReady (job_of (lent_by size table.now pixels.now)) maps.new }
{
    let equal = classed(two, maps);
    let first = ordered(size, table, pixels, direction, equal);
    let source = straight(size, table, pixels, first);
    draw_source(size, table, pixels, strips, starts, source, at, lines, maps);
}

// How many units hold a key and so many bytes.
fn units_for(bytes: usize) -> usize
    requires { bytes ≤ lines_bound }
    ensures { (key_bytes + bytes ≤ result * 8) × (result * 8 ≤ key_bytes + bytes + 7) }
{
    (bytes + KEY_BYTES + UNIT - 1) / UNIT
}

// How many units the key and the line of two pieces take. The standing piece's longer side is counted whichever turn it is in, so that the slot does
// not claim a second stretch when it is turned.
fn line_units(
    size: JobSize,
    table: &[PieceEntry],
    pixels: &[u8],
    direction: Direction,
    two: Two,
) -> usize
    requires { Named (lent_by size table.now pixels.now) two }
    ensures { UnitsFit direction (moved_shape (lent_by size table.now pixels.now) two) (standing_shape (lent_by size table.now pixels.now) two) result }
{
    let sides = sides_of(size, table, two);
    let longer = sides.standing_along.max(sides.standing_across);
    match direction {
        Direction::Horizontal => units_for(sides.moved_along + longer),
        Direction::Vertical => units_for(sides.moved_across + longer),
    }
}

// The place in the store at which the line of two pieces stands. It is made where it is not kept.
pub fn keep_line(
    run: RunSize,
    table: &[PieceEntry],
    pixels: &[u8],
    direction: Direction,
    strips: &[StripEntry],
    starts: &[u32],
    two: Two,
    lines: &mut [u8],
    maps: &mut [u64],
) -> usize
    requires fact_1 { Asked (lent_by run.size table.now pixels.now) strips.now starts.now two }
    requires fact_2 { LinesFit run lines.old }
    requires fact_3 { LinesKept (job_of (lent_by run.size table.now pixels.now)) run lines.old maps.old }
    ensures line { HoldsLine direction (moved_shape (lent_by run.size table.now pixels.now) two) (standing_shape (lent_by run.size table.now pixels.now) two) two.offset lines.new result }
    ensures within { result + line_places direction (moved_shape (lent_by run.size table.now pixels.now) two) (standing_shape (lent_by run.size table.now pixels.now) two) ≤ length lines.new }
    ensures kept { LinesKept (job_of (lent_by run.size table.now pixels.now)) run lines.new maps.new }
    ensures same { length lines.new ≡ length lines.old }
{
    let size = run.size;
    let slots = run.slots;
    let slot = slot_of(direction, two, slots);
    let key = key_of(direction, two);
    let held = begin_of(lines, slots, slot);
    let made = units_of(lines, slots, slot) != 0;
    if made {
        if key_at(lines, held) == key {
            return held + KEY_BYTES;
        }
    }
    let units = line_units(size, table, pixels, direction, two);
    let at = claim(lines, slots, slot, units);
    let from = at + KEY_BYTES;
    make_line(
        size, table, pixels, direction, strips, starts, two, from, lines, maps,
    );
    put_key(lines, at, key);
    from
}
