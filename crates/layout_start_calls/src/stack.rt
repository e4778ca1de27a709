// The start layout's stacks: pieces on top of each other, stack after stack from the left. Document 01, 'Start, layout text, sheet'.
ghost use Rattle.std.specs.Prelude.{◌≡◌, List, ℕ, ◌+◌, ◌<◌, ◌≤◌, length, get_or, take};
ghost use Rattle.model.specs.Lent.{lent_by, job_of, entry_columns, entry_rows, row_bound, column_bound, piece_bound};
ghost use Rattle.model.specs.Start.{empty_stack, on_stack};
ghost use Rattle.layout_places.specs.Fitting.{Fitting};
ghost use Rattle.layout_start_calls.specs.Stacks.{stack_of, stack_entries, PileRoom, Piled};

use layout_places::entry_of;
use model::{Column, JobSize, PIECE_BOUND, PieceEntry, PlaceEntry, Placement, Row, Turn};
use piece_table::{columns_of, rows_of};

// A stack of pieces: its left side, its height and its length so far. Document 01's X, Y and M.
#[derive(Clone, Copy)]
struct Pile {
    left: Column,
    height: Row,
    length: usize,
}

// The pile that takes piece i: a new one to the right where the piece would rise above the sheet.
fn room_for(size: JobSize, table: &[PieceEntry], i: usize, pile: Pile) -> Pile
    requires { (i < length table.now) × (entry_rows table.now i ≤ size.rows) × (pile.height.0 ≤ row_bound) × (pile.left.0 + pile.length ≤ 65535) }
    ensures { PileRoom size table.now i pile result }
{
    let rows = rows_of(table, i);
    if size.rows < pile.height.0 as usize + rows {
        let right = pile.left.0 as usize + pile.length;
        return Pile {
            left: Column(right as u16),
            height: Row(0),
            length: 0,
        };
    }
    pile
}

// Piece i on top of the pile, in turn 0, no further right than the sheet allows.
fn on_top(size: JobSize, table: &[PieceEntry], i: usize, pile: Pile) -> Placement
    requires { (i < length table.now) × (entry_columns table.now i ≤ size.columns) × (size.columns ≤ column_bound) }
    ensures { (pixels : List ℕ) → result ≡ on_stack (job_of (lent_by size table.now pixels)) i (stack_of pile) }
{
    let left = pile.left.0 as usize;
    let last = size.columns - columns_of(table, i);
    let x = left.min(last);
    Placement {
        turn: Turn::Zero,
        x: Column(x as u16),
        y: pile.height,
    }
}

// The pile with piece i on it.
fn piled(size: JobSize, table: &[PieceEntry], i: usize, pile: Pile) -> Pile
    requires { (i < length table.now) × (pile.height.0 + entry_rows table.now i ≤ size.rows) × (size.rows ≤ row_bound) }
    ensures { Piled size table.now i pile result }
{
    let left = pile.left;
    let top = pile.height.0 as usize + rows_of(table, i);
    Pile {
        left: left,
        height: Row(top as u16),
        length: pile.length.max(columns_of(table, i)),
    }
}

// The first `count` pieces of the order placed one after the other.
pub fn stack_all(
    size: JobSize,
    table: &[PieceEntry],
    order: &[usize; PIECE_BOUND],
    count: usize,
    layout: &mut [PlaceEntry],
)
    requires { Fitting size table.now × ((k : ℕ) → k < count → get_or order.now k 0 < size.count) × (count ≤ piece_bound) × (length order.now ≡ piece_bound) × (length layout.old ≡ size.count) }
    ensures { (pixels : List ℕ) → layout.new ≡ stack_entries (job_of (lent_by size table.now pixels)) (take count order.now) empty_stack layout.old }
{
    let mut pile = Pile {
        left: Column(0),
        height: Row(0),
        length: 0,
    };
    for &i in &order[..count] {
        pile = room_for(size, table, i, pile);
        layout[i] = entry_of(on_top(size, table, i, pile));
        pile = piled(size, table, i, pile);
    }
}
