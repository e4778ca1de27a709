// Boxes as a line sees them: the coordinates and sides along it and across it, the sides grown by the gap. Rows and columns are alike from here on.
#![tactic(auto)]

ghost use Rattle.std.specs.Prelude.{◌≡◌, List, ℕ, ◌+◌, ◌-◌, ◌<◌, ◌≤◌, length};
ghost use Rattle.model.specs.Piece.{line_direction};
ghost use Rattle.model.specs.Lent.{lent_by, job_of, column_bound, side_bound, gap_bound};
ghost use Rattle.model.specs.Buffer.{layout_of};
ghost use Rattle.search_tracks.specs.Boxes.{track_of, standing_of, room_on, SmallTrack, SmallStanding, MeetingTold, MeetingReach};

use model::{Direction, JobSize, Line, PieceEntry, PlaceEntry, Turn};

// A piece that moves: its number, its turn and the line that it moves on.
#[derive(Clone, Copy)]
pub struct Mover {
    pub piece: usize,
    pub turn: Turn,
    pub line: Line,
}

// A moving piece on its line: its grown box's sides along and across, the held coordinate, and how many places the line has for the piece.
#[derive(Clone, Copy)]
pub struct Track {
    pub length: usize,
    pub width: usize,
    pub held: usize,
    pub places: usize,
}

// A standing piece beside the line: its turn, its corner's coordinates along and across, and its grown box's sides along and across.
#[derive(Clone, Copy)]
pub struct StandingPiece {
    pub turn: Turn,
    pub along: usize,
    pub across: usize,
    pub length: usize,
    pub width: usize,
}

// The places of a line, from `low` up to and without `high`, at which a moving piece's box meets a standing one's, and where they
// begin in the line of penalties of the two.
#[derive(Clone, Copy)]
pub struct Reach {
    pub low: usize,
    pub high: usize,
    pub from: usize,
}

// The direction of a search on the line.
pub fn direction_of(line: Line) -> Direction
    ensures { result ≡ line_direction line }
{
    match line {
        Line::InRow(_) => Direction::Horizontal,
        Line::InColumn(_) => Direction::Vertical,
    }
}

// How many inside corners a line has for a box: sides along and across, the held coordinate, the sheet's sides along and across.
fn room_on(length: usize, width: usize, held: usize, sheet: usize, height: usize) -> usize
    requires { (width ≤ side_bound) × ((held ≤ 65535) × (sheet ≤ column_bound)) }
    ensures room { result ≡ room_on length width held sheet height }
    ensures small { result ≤ sheet + 1 - length }
{
    if height < held + width {
        return 0;
    }
    if sheet < length {
        return 0;
    }
    sheet + 1 - length
}

// The moving piece on its line.
pub fn track_of(size: JobSize, table: &[PieceEntry], mover: Mover) -> Track
    requires fact_1 { (mover.piece < length table.now) × ((size.columns ≤ column_bound) × (size.rows ≤ column_bound)) }
    requires fact_2 { size.gap ≤ gap_bound }
    ensures track { (pixels : List ℕ) → result ≡ track_of (job_of (lent_by size table.now pixels)) mover }
    ensures small { SmallTrack result }
{
    let piece = mover.piece;
    let turn = mover.turn;
    let line = mover.line;
    let sides = piece_pixels::turned_sides(table, piece, turn);
    let columns = sides.columns + size.gap;
    let rows = sides.rows + size.gap;
    match line {
        Line::InRow(row) => {
            let held = row.0 as usize;
            Track {
                length: columns,
                width: rows,
                held: held,
                places: room_on(sides.columns, sides.rows, held, size.columns, size.rows),
            }
        }
        Line::InColumn(column) => {
            let held = column.0 as usize;
            Track {
                length: rows,
                width: columns,
                held: held,
                places: room_on(sides.rows, sides.columns, held, size.rows, size.columns),
            }
        }
    }
}

// Piece k as the layout places it, beside a line of the direction.
pub fn standing_of(
    size: JobSize,
    table: &[PieceEntry],
    layout: &[PlaceEntry],
    direction: Direction,
    k: usize,
) -> StandingPiece
    requires fact_1 { (k < length table.now) × (k < length layout.now) }
    requires fact_2 { size.gap ≤ gap_bound }
    ensures standing { (pixels : List ℕ) → result ≡ standing_of (job_of (lent_by size table.now pixels)) (layout_of layout.now) direction k }
    ensures small { SmallStanding result }
{
    let place = layout_places::place_at(layout, k);
    let turn = place.turn;
    let sides = piece_pixels::turned_sides(table, k, turn);
    let columns = sides.columns + size.gap;
    let rows = sides.rows + size.gap;
    let x = place.x.0 as usize;
    let y = place.y.0 as usize;
    match direction {
        Direction::Horizontal => StandingPiece {
            turn: turn,
            along: x,
            across: y,
            length: columns,
            width: rows,
        },
        Direction::Vertical => StandingPiece {
            turn: turn,
            along: y,
            across: x,
            length: rows,
            width: columns,
        },
    }
}

// The first place at which the boxes meet along the line, cut at 0.
fn low_of(along: usize, length: usize) -> usize
    requires { along ≤ 65535 }
    ensures { result ≡ along + 1 - length }
{
    if along < length {
        return 0;
    }
    along + 1 - length
}

// Whether the boxes meet across the line. Both tests are made in one: neither can be foretold.
pub fn meets_across(track: Track, standing: StandingPiece) -> bool
    requires fact_1 { SmallTrack track }
    requires fact_2 { SmallStanding standing }
    ensures { MeetingTold track standing result }
{
    (track.held < standing.across + standing.width) & (standing.across < track.held + track.width)
}

// Where the boxes meet.
pub fn reach_of(track: Track, standing: StandingPiece) -> Reach
    requires fact_1 { SmallTrack track }
    requires fact_2 { SmallStanding standing }
    requires fact_3 { 0 < track.length }
    ensures { MeetingReach track standing result }
{
    if standing.across + standing.width <= track.held {
        return Reach {
            low: 0,
            high: 0,
            from: 0,
        };
    }
    if track.held + track.width <= standing.across {
        return Reach {
            low: 0,
            high: 0,
            from: 0,
        };
    }
    let low = low_of(standing.along, track.length);
    let high = track.places.min(standing.along + standing.length);
    Reach {
        low: low,
        high: high,
        from: low + track.length - (standing.along + 1),
    }
}
