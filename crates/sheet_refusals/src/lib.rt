// Why a call on the sheet is refused: the first cause in the call's order.
#![tactic(auto)]

ghost use Rattle.std.specs.Prelude.{◌≡◌, List, [], ℕ, ◌≤◌, length};
ghost use Rattle.model.specs.Lent.{lent_by, job_of, piece_bound};
ghost use Rattle.model.specs.Answers.{first_cause};
ghost use Rattle.model.specs.Calls.{sheet_causes};
ghost use Rattle.model.specs.Cover.{lay_causes, withdraw_causes};
ghost use Rattle.sheet_refusals.specs.Causes.{sheet_of, buffer_causes};

use layout_places::known;
use model::{JobSize, PieceEntry, Placement, Record, Refusal, refused};
use piece_table::is_locked;
use sheet_check::{entry_of, sheet_well};

// Of every call: 8 the job, 7 the count buffer's length.
pub fn buffer_refusal(
    size: JobSize,
    table: &[PieceEntry],
    pixels: &[u8],
    room: usize,
) -> Result<(), Refusal>
    ensures { result ≡ first_cause (buffer_causes (lent_by size table.now pixels.now) room) }
{
    if !job_check::check_job(size, table, pixels) {
        return refused(8);
    }
    if room != size.rows * size.columns {
        return refused(7);
    }
    Ok(())
}

// Of lay and withdraw: then 8, a record or counts that no list of calls gives.
pub fn sheet_refusal(
    size: JobSize,
    table: &[PieceEntry],
    pixels: &[u8],
    sheet: Record,
    counts: &[u8],
) -> Result<(), Refusal>
    ensures { result ≡ first_cause (sheet_causes (lent_by size table.now pixels.now) (sheet_of sheet counts.now) []) }
{
    buffer_refusal(size, table, pixels, counts.len())?;
    if !sheet_well(size, table, pixels, sheet, counts) {
        return refused(8);
    }
    Ok(())
}

// Of lay: then 9 no such piece or turn not allowed, 13 laid already, 10 outside.
pub fn lay_refusal(
    size: JobSize,
    table: &[PieceEntry],
    sheet: Record,
    piece: usize,
    place: Placement,
) -> Result<(), Refusal>
    requires { (size.count ≤ length table.now) × (size.count ≤ piece_bound) }
    ensures { (pixels counts : List ℕ) → result ≡ first_cause (lay_causes (job_of (lent_by size table.now pixels)) (sheet_of sheet counts) piece place) }
{
    let turn = place.turn;
    if !known(size, table, piece, turn) {
        return refused(9);
    }
    let entry = entry_of(sheet, piece);
    if entry.laid {
        return refused(13);
    }
    if !layout_places::inside(size, table, piece, place) {
        return refused(10);
    }
    Ok(())
}

// Of withdraw: then 9 no such piece, 14 not laid, 15 locked.
pub fn withdraw_refusal(
    size: JobSize,
    table: &[PieceEntry],
    sheet: Record,
    piece: usize,
) -> Result<(), Refusal>
    requires { (size.count ≤ length table.now) × (size.count ≤ piece_bound) }
    ensures { (pixels counts : List ℕ) → result ≡ first_cause (withdraw_causes (job_of (lent_by size table.now pixels)) (sheet_of sheet counts) piece) }
{
    if size.count <= piece {
        return refused(9);
    }
    let entry = entry_of(sheet, piece);
    let locked = is_locked(table, piece);
    if !entry.laid {
        return refused(14);
    }
    if locked {
        return refused(15);
    }
    Ok(())
}
