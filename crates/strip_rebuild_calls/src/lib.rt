// Rebuilding a piece from its strips (document 01, 'Strips'): the one pixel set of a box that has given row or column strips.
#![tactic(auto)]

ghost use Rattle.std.specs.Prelude.{◌≡◌, length};
ghost use Rattle.model.specs.Answers.{done_answer};
ghost use Rattle.model.specs.Calls.{rebuild_call, pixels_after};
ghost use Rattle.model.specs.Lent.{up_to};
ghost use Rattle.model.specs.Piece.{side_bound};
ghost use Rattle.strip_rebuild_calls.specs.Again.{Again};

use model::{Direction, Refusal, StripEntry, refused};

// The most pixels along a box side, as a side is handed over.
const SIDE_BOUND: u16 = model::SIDE_BOUND as u16;

// A box side is in range.
fn side_in_range(side: u16) -> bool
    ensures { result ≡ up_to side_bound side }
{
    if side == 0 {
        return false;
    }
    side <= SIDE_BOUND
}

// Writes the pixel bytes of the one set in the box that has just these strips.
pub fn rebuild(
    columns: u16,
    rows: u16,
    direction: Direction,
    strips: &[StripEntry],
    pixels: &mut [u8],
) -> Result<(), Refusal>
    ensures answer { result ≡ done_answer (rebuild_call direction columns rows strips.now (length pixels.old)) }
    ensures memory { pixels.new ≡ pixels_after pixels.old (rebuild_call direction columns rows strips.now (length pixels.old)) }
    ensures again { Again direction columns rows strips.now pixels.old pixels.new }
{
    if !side_in_range(columns) {
        return refused(2);
    }
    if !side_in_range(rows) {
        return refused(2);
    }
    let columns = columns as usize;
    let rows = rows as usize;
    if !strip_check::strips_well(direction, columns, rows, strips) {
        return refused(8);
    }
    if pixels.len() < columns * rows {
        return refused(7);
    }
    strip_paint::write(direction, columns, rows, strips, pixels);
    Ok(())
}
