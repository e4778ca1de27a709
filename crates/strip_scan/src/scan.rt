// Reading a piece's strips out of the pixel store, in any turn and along either direction.

ghost use Rattle.std.specs.Prelude.{◌≡◌, ◌-◌, ◌<◌, ◌≤◌};
ghost use Rattle.std.specs.Bool.{beq};
ghost use Rattle.model.specs.Bounded.{first_from};
ghost use Rattle.model.specs.Piece.{other, cell};
ghost use Rattle.piece_pixels.specs.Turned.{shown_by, SmallPiece};
ghost use Rattle.strip_scan.specs.Scan.{turned_side, NextIs};

use model::Direction;
use piece_pixels::TurnedPiece;

// A strip that reading on finds.
#[derive(Clone, Copy)]
pub struct FoundStrip {
    pub line: usize,
    pub first: usize,
    pub count: usize,
}

// The pixels along a line in the direction.
pub fn line_length(piece: TurnedPiece, direction: Direction) -> usize
    ensures { result ≡ turned_side direction piece }
{
    let turn = piece.turn;
    let sides = piece_pixels::sides_in(piece.columns, piece.rows, turn);
    match direction {
        Direction::Horizontal => sides.columns,
        Direction::Vertical => sides.rows,
    }
}

// The lines in the direction: rows of a horizontal one, columns of a vertical one.
pub fn line_count(piece: TurnedPiece, direction: Direction) -> usize
    ensures { result ≡ turned_side (other direction) piece }
{
    let turn = piece.turn;
    let sides = piece_pixels::sides_in(piece.columns, piece.rows, turn);
    match direction {
        Direction::Horizontal => sides.rows,
        Direction::Vertical => sides.columns,
    }
}

// Whether the turned piece has the pixel at the given coordinates along and across.
fn is_pixel(
    pixels: &[u8],
    piece: TurnedPiece,
    direction: Direction,
    along: usize,
    line: usize,
) -> bool
    requires { SmallPiece piece × ((along < turned_side direction piece) × (line < turned_side (other direction) piece)) }
    ensures { result ≡ cell direction (shown_by pixels.now piece) along line }
{
    match direction {
        Direction::Horizontal => piece_pixels::has_pixel(pixels, piece, along, line),
        Direction::Vertical => piece_pixels::has_pixel(pixels, piece, line, along),
    }
}

// The first cell of a line from `from` on that is a pixel, or that is none, as `wanted` says; the line's length where there is none.
fn find(
    pixels: &[u8],
    piece: TurnedPiece,
    direction: Direction,
    line: usize,
    from: usize,
    wanted: bool,
) -> usize
    requires { SmallPiece piece × ((from ≤ turned_side direction piece) × (line < turned_side (other direction) piece)) }
    ensures { result ≡ first_from (λ a. beq (cell direction (shown_by pixels.now piece) a line) wanted) from (turned_side direction piece - from) }
{
    let length = line_length(piece, direction);
    for at in from..length {
        if is_pixel(pixels, piece, direction, at, line) == wanted {
            return at;
        }
    }
    length
}

// The next strip from a cell of a line on, if there is one.
pub fn next_strip(
    pixels: &[u8],
    piece: TurnedPiece,
    direction: Direction,
    line: usize,
    along: usize,
) -> Option<FoundStrip>
    requires { SmallPiece piece × (along ≤ turned_side direction piece) }
    ensures { NextIs direction pixels.now piece line along result }
{
    let length = line_length(piece, direction);
    let lines = line_count(piece, direction);
    let mut along = along;
    for line in line..lines {
        let first = find(pixels, piece, direction, line, along, true);
        if first < length {
            let end = find(pixels, piece, direction, line, first, false);
            let count = end - first;
            return Some(FoundStrip { line, first, count });
        }
        along = 0;
    }
    None
}
