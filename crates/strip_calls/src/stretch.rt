// The stretch of one piece: a part of the row store or the column store, handed on without a copy.

ghost use Rattle.std.specs.Prelude.{◌≡◌};
ghost use Rattle.model.specs.Lent.{lent_by};
ghost use Rattle.model.specs.Store.{stretch_in};
ghost use Rattle.model.specs.Calls.{stretch_call, stretch_given, stretch_number};
ghost use Rattle.strip_calls.specs.Stores.{stores_by, Cut};

use super::compare::same_stores;
use super::turns;
use model::{Direction, JobSize, PieceEntry, StripEntry};

// The part of a store between a piece's start and the next.
fn part<'a>(strips: &'a [StripEntry], starts: &[u32], piece: usize) -> &'a [StripEntry]
    requires { Cut strips.now starts.now piece }
    ensures { result.now ≡ stretch_in strips.now starts.now piece }
{
    let from = starts[piece] as usize;
    let to = starts[piece + 1] as usize;
    &strips[from..to]
}

// The number by which the stretch of a piece is refused, 0 where it is given.
pub fn stretch_refusal(
    size: JobSize,
    table: &[PieceEntry],
    pixels: &[u8],
    turns: &[u16],
    row_strips: &[StripEntry],
    row_starts: &[u32],
    column_strips: &[StripEntry],
    column_starts: &[u32],
    piece: usize,
    direction: Direction,
) -> u8
    ensures { result ≡ stretch_number (stretch_call (lent_by size table.now pixels.now) turns.now (stores_by row_strips.now row_starts.now column_strips.now column_starts.now) piece direction) }
{
    if !job_check::check_job(size, table, pixels) {
        return 8;
    }
    if turns::wrong(size, table, turns) {
        return 9;
    }
    if size.count <= piece {
        return 9;
    }
    if !same_stores(
        size,
        table,
        pixels,
        turns,
        row_strips,
        row_starts,
        column_strips,
        column_starts,
    ) {
        return 8;
    }
    0
}

// The stretch of a piece from the row store or the column store, as the direction is horizontal or vertical; empty where it is refused.
pub fn stretch<'a>(
    size: JobSize,
    table: &[PieceEntry],
    pixels: &[u8],
    turns: &[u16],
    row_strips: &'a [StripEntry],
    row_starts: &[u32],
    column_strips: &'a [StripEntry],
    column_starts: &[u32],
    piece: usize,
    direction: Direction,
) -> &'a [StripEntry]
    ensures { result.now ≡ stretch_given (stretch_call (lent_by size table.now pixels.now) turns.now (stores_by row_strips.now row_starts.now column_strips.now column_starts.now) piece direction) }
{
    let refused = stretch_refusal(
        size,
        table,
        pixels,
        turns,
        row_strips,
        row_starts,
        column_strips,
        column_starts,
        piece,
        direction,
    ) != 0;
    if refused {
        return &row_strips[..0];
    }
    match direction {
        Direction::Horizontal => part(row_strips, row_starts, piece),
        Direction::Vertical => part(column_strips, column_starts, piece),
    }
}
