// What the exported calls share: the reply, and the core's types made of the numbers that a call is handed.
#![tactic(auto)]

ghost use Rattle.std.specs.Prelude.{◌≡◌};
ghost use Rattle.model.specs.Buffer.{placement};
ghost use Rattle.model.specs.Buffer.{direction_of};
ghost use Rattle.c_interface.specs.Numbers.{size_as, line_of, piece_with_turn};
ghost use Rattle.c_interface.specs.Replies.{done, refused_by};

use model::{Column, Direction, JobSize, Line, PIECE_BOUND, Placement, Refusal, Row};

pub mod record;

// What an exported call replies: number 0, or why and where it is refused.
#[repr(C)]
#[derive(Clone, Copy)]
pub struct Reply {
    pub number: u32,
    pub first: u32,
    pub second: u32,
}

// The reply of a call that did its work.
pub fn done() -> Reply
    ensures { result ≡ done }
{
    Reply {
        number: 0,
        first: 0,
        second: 0,
    }
}

// The reply of a refused call.
pub fn refused(refusal: Refusal) -> Reply
    ensures { result ≡ refused_by refusal }
{
    Reply {
        number: refusal.number as u32,
        first: refusal.first,
        second: refusal.second,
    }
}

// A job's numbers.
pub fn size_of(rows: usize, columns: usize, count: usize, gap: usize) -> JobSize
    ensures { result ≡ size_as rows columns count gap }
{
    JobSize {
        rows: rows,
        columns: columns,
        count: count,
        gap: gap,
    }
}

// The direction: 0 is horizontal, every other number vertical.
pub fn direction_of(vertical: u8) -> Direction
    ensures { result ≡ direction_of vertical }
{
    if vertical == 0 {
        Direction::Horizontal
    } else {
        Direction::Vertical
    }
}

// The line in a held row, or in a held column if vertical.
pub fn line_of(vertical: u8, held: u16) -> Line
    ensures { result ≡ line_of vertical held }
{
    if vertical == 0 {
        Line::InRow(Row(held))
    } else {
        Line::InColumn(Column(held))
    }
}

// The placement of given degrees, column and row; degrees of no turn stand for turn 0.
pub fn placement_of(turn: u16, x: u16, y: u16) -> Placement
    ensures { result ≡ placement turn x y }
{
    let turn = layout_places::turn_or_zero(turn);
    Placement {
        turn: turn,
        x: Column(x),
        y: Row(y),
    }
}

// The piece's number, or one that no piece has where the degrees are no turn's.
pub fn piece_with_turn(turn: u16, piece: usize) -> usize
    ensures { result ≡ piece_with_turn turn piece }
{
    match layout_places::turn_of(turn) {
        Some(_) => piece,
        None => PIECE_BOUND,
    }
}
