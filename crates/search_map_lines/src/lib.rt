// Penalty lines from a map of two pieces: a cell that is clear has penalty 0; a set one has the least distance to a clear bit, along its row or
// across the rows. The clear bits around the cells stand for the offsets at which the boxes part. A row of a map along rows is a line along
// a row, a column of it a line along a column.
#![tactic(auto)]

ghost use Rattle.std.specs.Prelude.{◌≡◌, ◌+◌, ◌<◌, ◌≤◌, length};
ghost use Rattle.model.specs.Piece.{Shape};
ghost use Rattle.model.specs.declared.Direction.{Direction};
ghost use Rattle.model.specs.declared.Direction.TheVariants.{Horizontal, Vertical};
ghost use Rattle.bit_laws.specs.Bit.{length_limit};
ghost use Rattle.search_words.specs.Words.{Cleared};
ghost use Rattle.search_maps.specs.Map.{sides_of, columns_of, rows_of, SidesFit, MapOf};
ghost use Rattle.search_map_lines.specs.Line.{RowReaches, RowDone, Bordered, ByteSides, LineOf, places_of};

use model::Direction;
use search_maps::Sides;

// Where the moved piece stands across: an offset of the standing one is counted from here. It is the longest box side with the largest gap, 255 + 8.
pub const MIDDLE: usize = 263;

// The places that are read at once.
const BLOCK: usize = 64;

// Sets the first places of a line to 0.
fn clear_line(line: &mut [u8], count: usize)
    requires { count ≤ length line.old }
    ensures { Cleared count line.old line.new }
{
    line[..count].fill(0);
}

// Sets the line to the distance of each set bit of a row that begins at p.
fn row_line(ws: &[u64], w: usize, p: usize, places: usize, line: &mut [u8])
    requires fact_1 { RowReaches ws.now w p places }
    requires fact_2 { (places ≤ length line.old) × (length line.old < length_limit) }
    ensures { RowDone ws.now w p places line.old line.new }
{
    for at in (0..places).step_by(BLOCK) {
        let count = BLOCK.min(places - at);
        search_peel::peel(ws, w, p + at, count, line, at);
    }
}

// Makes the line of two pieces along a row of their map, at an offset across. Where the boxes do not meet across, all penalties are 0.
fn map_row(words: &[u64], sides: Sides, offset: usize, line: &mut [u8])
    requires fact_1 { SidesFit sides }
    requires fact_2 { ByteSides sides }
    requires fact_3 { Bordered sides words.now }
    requires fact_4 { (offset < length_limit) × (columns_of sides ≤ length line.old) × (length line.old < length_limit) }
    ensures { (d : Direction) (s t : Shape) → sides ≡ sides_of d s t → MapOf d s t words.now → LineOf d s t offset line.old line.new }
{
    let w = search_maps::row_width(sides);
    let places = w - 1;
    clear_line(line, places);
    if offset >= MIDDLE + sides.moved_across {
        return;
    }
    if offset + sides.standing_across <= MIDDLE {
        return;
    }
    let row = MIDDLE + sides.moved_across - offset;
    row_line(words, w, row * w, places, line);
}

// Makes the line of two pieces along a column of their map along rows. Where the boxes do not meet across, all penalties are 0.
fn map_column(words: &[u64], sides: Sides, offset: usize, line: &mut [u8])
    requires fact_1 { SidesFit sides }
    requires fact_2 { ByteSides sides }
    requires fact_3 { Bordered sides words.now }
    requires fact_4 { (offset < length_limit) × (rows_of sides ≡ length line.old) }
    ensures { (s t : Shape) → sides ≡ sides_of Horizontal s t → MapOf Horizontal s t words.now → LineOf Vertical s t offset line.old line.new }
{
    let w = search_maps::row_width(sides);
    let count = line.len();
    clear_line(line, count);
    if offset >= MIDDLE + sides.moved_along {
        return;
    }
    if offset + sides.standing_along <= MIDDLE {
        return;
    }
    let column = MIDDLE + sides.moved_along - 1 - offset;
    search_columns::column_line(words, w, w + column, line);
}

// The places of a line along the direction.
pub fn line_places(direction: Direction, sides: Sides) -> usize
    requires { SidesFit sides }
    ensures { result ≡ places_of direction sides }
{
    match direction {
        Direction::Horizontal => sides.moved_along + sides.standing_along - 1,
        Direction::Vertical => sides.moved_across + sides.standing_across - 1,
    }
}

// Makes the line of two pieces along the direction from their map along rows.
pub fn map_line(direction: Direction, words: &[u64], sides: Sides, offset: usize, line: &mut [u8])
    requires fact_1 { SidesFit sides }
    requires fact_2 { ByteSides sides }
    requires fact_3 { Bordered sides words.now }
    requires fact_4 { (offset < length_limit) × (places_of direction sides ≡ length line.old) }
    ensures { (s t : Shape) → sides ≡ sides_of Horizontal s t → MapOf Horizontal s t words.now → LineOf direction s t offset line.old line.new }
{
    match direction {
        Direction::Horizontal => map_row(words, sides, offset, line),
        Direction::Vertical => map_column(words, sides, offset, line),
    }
}
