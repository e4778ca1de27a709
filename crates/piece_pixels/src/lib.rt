// A piece as the pixel store holds it, seen in a turn: the sides of its turned box, and where each of its pixels stands in the store.
// Strips and the counts of a sheet both read pixels through this crate.
#![tactic(auto)]

ghost use Rattle.std.specs.Prelude.{◌≡◌, List, ℕ, ◌+◌, ◌*◌, ◌<◌, ◌≤◌, eqb, length, get_or};
ghost use Rattle.model.specs.Piece.{Shape, turned};
ghost use Rattle.model.specs.Layout.{turned_piece};
ghost use Rattle.model.specs.Lent.{lent_by, job_of, side_bound};
ghost use Rattle.model.specs.declared.JobSize.{JobSize};
ghost use Rattle.piece_pixels.specs.Turned.{sides_of, made_of, shown_by, InTurnedBox, SmallPiece, PixelStored};

use model::{PieceEntry, Turn};
use piece_table::{columns_of, rows_of};

// A piece as the pixel store holds it, seen in a turn: where its pixels begin, its box's columns and rows, and the turn.
#[derive(Clone, Copy)]
pub struct TurnedPiece {
    pub start: usize,
    pub columns: usize,
    pub rows: usize,
    pub turn: Turn,
}

// The sides of a box.
#[derive(Clone, Copy)]
pub struct Sides {
    pub columns: usize,
    pub rows: usize,
}

// A piece of a job's table, seen in a turn. Its pixels begin at `start`.
pub fn turned_piece(table: &[PieceEntry], piece: usize, start: usize, turn: Turn) -> TurnedPiece
    requires { piece < length table.now }
    ensures { result ≡ made_of table.now piece start turn }
{
    TurnedPiece {
        start,
        columns: columns_of(table, piece),
        rows: rows_of(table, piece),
        turn,
    }
}

// The sides of a box of so many columns and rows in a turn.
pub fn sides_in(columns: usize, rows: usize, turn: Turn) -> Sides
    ensures sides { (s : Shape) → columns ≡ s.columns → rows ≡ s.rows → result ≡ sides_of (turned turn s) }
    ensures small { (b : ℕ) → columns ≤ b → rows ≤ b → (result.columns ≤ b) × (result.rows ≤ b) }
{
    match turn {
        Turn::Zero => Sides { columns, rows },
        Turn::Quarter => Sides {
            columns: rows,
            rows: columns,
        },
        Turn::Half => Sides { columns, rows },
        Turn::ThreeQuarters => Sides {
            columns: rows,
            rows: columns,
        },
    }
}

// The sides of piece i's box in a turn.
pub fn turned_sides(table: &[PieceEntry], i: usize, turn: Turn) -> Sides
    requires { i < length table.now }
    ensures sides { (size : JobSize) (pixels : List ℕ) → result ≡ sides_of (turned_piece (job_of (lent_by size table.now pixels)) i turn) }
    ensures small { (result.columns ≤ side_bound) × (result.rows ≤ side_bound) }
{
    let columns = columns_of(table, i);
    let rows = rows_of(table, i);
    sides_in(columns, rows, turn)
}

// Where the pixel in column x and row y of the box, before the turn, stands in the store.
fn stored_index(piece: TurnedPiece, x: usize, y: usize) -> usize
    requires { SmallPiece piece × ((x < piece.columns) × (y < piece.rows)) }
    ensures { (result ≡ piece.start + (y * piece.columns + x)) × (result < piece.start + piece.rows * piece.columns) }
{
    piece.start + (y * piece.columns + x)
}

// Where the pixel in column x and row y of the turned box stands in the store.
fn cell_index(piece: TurnedPiece, x: usize, y: usize) -> usize
    requires { SmallPiece piece × InTurnedBox piece x y }
    ensures shows { (pixels : List ℕ) → eqb (get_or pixels result 0) 1 ≡ (shown_by pixels piece).has x y }
    ensures within { result < piece.start + piece.rows * piece.columns }
{
    let turn = piece.turn;
    match turn {
        Turn::Zero => stored_index(piece, x, y),
        Turn::Quarter => stored_index(piece, y, piece.rows - 1 - x),
        Turn::Half => stored_index(piece, piece.columns - 1 - x, piece.rows - 1 - y),
        Turn::ThreeQuarters => stored_index(piece, piece.columns - 1 - y, x),
    }
}

// Whether the turned piece has the pixel in column x and row y.
pub fn has_pixel(pixels: &[u8], piece: TurnedPiece, x: usize, y: usize) -> bool
    requires { SmallPiece piece × InTurnedBox piece x y }
    ensures { result ≡ (shown_by pixels.now piece).has x y }
{
    let index = cell_index(piece, x, y);
    if index < pixels.len() {
        return pixels[index] == 1;
    }
    // The store of a job that passed its check has every pixel of its boxes: this does not happen.
    false
}

// The same of a store that has every pixel of the box, without a look at the store's length.
pub fn stored_pixel(pixels: &[u8], piece: TurnedPiece, x: usize, y: usize) -> bool
    requires { PixelStored pixels.now piece × InTurnedBox piece x y }
    ensures { result ≡ (shown_by pixels.now piece).has x y }
{
    pixels[cell_index(piece, x, y)] == 1
}
