// The stores of a job's strips (document 01, 'Strips'): the strips call fills them, the stretch call hands out one piece's part.
#![tactic(auto)]

use model::{JobSize, PieceEntry, Refusal, StripEntry, refused};
use strip_store::fill::room_for;

mod compare;
mod fill;
pub mod stretch;
mod turns;

ghost use Rattle.std.specs.Prelude.{◌≡◌};
ghost use Rattle.model.specs.Answers.{done_answer};
ghost use Rattle.model.specs.Lent.{lent_by};
ghost use Rattle.model.specs.Calls.{strips_call, stores_after};
ghost use Rattle.strip_calls.specs.Stores.{stores_by};

// Fills the row store and the column store of a job in given turns, each with its starts.
pub fn strips(
    size: JobSize,
    table: &[PieceEntry],
    pixels: &[u8],
    turns: &[u16],
    row_strips: &mut [StripEntry],
    row_starts: &mut [u32],
    column_strips: &mut [StripEntry],
    column_starts: &mut [u32],
) -> Result<(), Refusal>
    ensures answer { result ≡ done_answer (strips_call (lent_by size table.now pixels.now) turns.now (stores_by row_strips.old row_starts.old column_strips.old column_starts.old)) }
    ensures memory { stores_by row_strips.new row_starts.new column_strips.new column_starts.new ≡ stores_after (stores_by row_strips.old row_starts.old column_strips.old column_starts.old) (strips_call (lent_by size table.now pixels.now) turns.now (stores_by row_strips.old row_starts.old column_strips.old column_starts.old)) }
{
    if !job_check::check_job(size, table, pixels) {
        return refused(8);
    }
    if turns::wrong(size, table, turns) {
        return refused(9);
    }
    let rows = room_for(row_strips.len(), row_starts.len());
    let columns = room_for(column_strips.len(), column_starts.len());
    if !fill::both_have_room(size, table, pixels, turns, rows, columns) {
        return refused(7);
    }
    fill::fill_both(
        size,
        table,
        pixels,
        turns,
        row_strips,
        row_starts,
        column_strips,
        column_starts,
    );
    Ok(())
}
