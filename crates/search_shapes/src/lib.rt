// The strips of every piece in every turn, made once and read many times: what the searches work on. Shape number
// 4 i + t is piece i in turn t; specs/Shapes.antt says how the buffers hold it.
#![tactic(auto)]

ghost use Rattle.std.specs.Prelude.{◌≡◌, true, ◌+◌, ◌*◌, ◌<◌, ◌^◌, length};
ghost use Rattle.model.specs.Lent.{lent_by, job_of, lent_well};
ghost use Rattle.model.specs.Layout.{Job, turned_piece};
ghost use Rattle.model.specs.declared.Direction.{Direction};
ghost use Rattle.descent_laws.specs.Trials.{turn_number};
ghost use Rattle.search_shapes.specs.Shapes.{numbered_turn, shape_number, Held, Shapes, StripsOf, ShapesRoom, store_bound};

use model::{Direction, JobSize, PieceEntry, StripEntry, Turn};

// The strips that a store of every piece in every turn has room for.
pub const STORE_LENGTH: usize = 163840;

// Its starts: one for each piece in each turn, and the end.
pub const STARTS_LENGTH: usize = 4 * model::PIECE_BOUND + 1;

// The number of a turn.
fn turn_number(turn: Turn) -> usize
    ensures { result ≡ turn_number turn }
{
    match turn {
        Turn::Zero => 0,
        Turn::Quarter => 1,
        Turn::Half => 2,
        Turn::ThreeQuarters => 3,
    }
}

// The turn of a number.
fn numbered_turn(number: usize) -> Turn
    ensures { result ≡ numbered_turn number }
{
    match number {
        0 => Turn::Zero,
        1 => Turn::Quarter,
        2 => Turn::Half,
        _ => Turn::ThreeQuarters,
    }
}

// The number of a piece in a turn.
pub fn shape_number(piece: usize, turn: Turn) -> usize
    requires { piece < 2 ^ 62 }
    ensures { (result ≡ shape_number piece turn) × (result < piece * 4 + 4) }
{
    piece * 4 + turn_number(turn)
}

// A store with room for the strips of every piece in every turn. What it holds plays no part, so that no caller's proof computes with it.
pub fn empty_store() -> [StripEntry; STORE_LENGTH]
    ensures { length result ≡ store_bound }
{
    [[0u8; 3]; STORE_LENGTH]
}

// Makes the strips of every piece in every turn along the direction, allowed or not.
pub fn make_shapes(
    size: JobSize,
    table: &[PieceEntry],
    pixels: &[u8],
    direction: Direction,
    store: &mut [StripEntry],
    starts: &mut [u32],
)
    requires fact_1 { lent_well (lent_by size table.now pixels.now) ≡ true }
    requires fact_2 { ShapesRoom store.old starts.old }
    ensures { Shapes direction (job_of (lent_by size table.now pixels.now)) store.new starts.new }
{
    let last = size.count * 4;
    let mut at = 0;
    starts[0] = 0;
    for k in 0..last {
        let piece = k / 4;
        let start = job_check::pixel_start(table, piece);
        let turn = numbered_turn(k % 4);
        at = strip_scan::put::put_piece(table, pixels, piece, start, turn, direction, store, at);
        starts[k + 1] = at as u32;
    }
}

// The strips of a piece in a turn: a part of the store.
pub fn shape_strips<'a>(
    store: &'a [StripEntry],
    starts: &[u32],
    piece: usize,
    turn: Turn,
) -> &'a [StripEntry]
    requires { Held store.now starts.now (shape_number piece turn) }
    ensures { (d : Direction) (j : Job) → Shapes d j store.now starts.now → piece < j.size.count → StripsOf d (turned_piece j piece turn) result.now }
{
    let number = shape_number(piece, turn);
    let from = starts[number] as usize;
    let to = starts[number + 1] as usize;
    &store[from..to]
}
