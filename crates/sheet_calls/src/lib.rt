// The sheet of cover counts: document 01, 'Start, layout text, sheet' and 'When a call says no'. The record says which pieces are laid
// and where; the lent buffer has one count a pixel, row by row, so that pixel (x, y) stands at y * L + x. A refused call writes nothing.
#![tactic(auto)]

ghost use Rattle.std.specs.Prelude.{◌≡◌, length};
ghost use Rattle.model.specs.Lent.{lent_by};
ghost use Rattle.model.specs.Answers.{done_answer};
ghost use Rattle.model.specs.Calls.{fresh_call, lay_call, withdraw_call, counts_after};
ghost use Rattle.sheet_calls.specs.Answers.{blank_record, record_answer, sheet_answer};
ghost use Rattle.sheet_refusals.specs.Causes.{sheet_of};

use model::{Entry, JobSize, PieceEntry, Placement, Record, Refusal};
use sheet_counts::Change;
use sheet_refusals::{buffer_refusal, lay_refusal, sheet_refusal, withdraw_refusal};

mod record;

// What a call on the sheet answers: the reply, and the sheet record after it. On a refusal the record is the one that was passed; a
// refused fresh sheet has the record where nothing is laid.
#[derive(Clone, Copy)]
pub struct SheetAnswer {
    pub reply: Result<(), Refusal>,
    pub sheet: Record,
}

// Clears all counts, or tells why a fresh sheet is refused.
fn make_fresh(
    size: JobSize,
    table: &[PieceEntry],
    pixels: &[u8],
    counts: &mut [u8],
) -> Result<(), Refusal>
    ensures value { result ≡ done_answer (fresh_call (lent_by size table.now pixels.now) (length counts.old)) }
    ensures counts_after { counts.new ≡ counts_after counts.old (fresh_call (lent_by size table.now pixels.now) (length counts.old)) }
{
    buffer_refusal(size, table, pixels, counts.len())?;
    sheet_counts::clear(counts);
    Ok(())
}

// A fresh sheet: nothing is laid and all counts are 0. Refused: 8 the job, 7 a count buffer that is not W x L long. The record is the same in both
// cases, so it is made once.
pub fn fresh(size: JobSize, table: &[PieceEntry], pixels: &[u8], counts: &mut [u8]) -> SheetAnswer
    ensures value { result ≡ sheet_answer blank_record (fresh_call (lent_by size table.now pixels.now) (length counts.old)) }
    ensures counts_after { counts.new ≡ counts_after counts.old (fresh_call (lent_by size table.now pixels.now) (length counts.old)) }
{
    let reply = make_fresh(size, table, pixels, counts);
    SheetAnswer {
        reply,
        sheet: record::blank_record(),
    }
}

// The record with a piece laid, its pixels counted, or the refusal of the lay.
fn lay_on(
    size: JobSize,
    table: &[PieceEntry],
    pixels: &[u8],
    sheet: Record,
    counts: &mut [u8],
    piece: usize,
    place: Placement,
) -> Result<Record, Refusal>
    ensures value { result ≡ record_answer (lay_call (lent_by size table.now pixels.now) (sheet_of sheet counts.old) piece place) }
    ensures counts_after { counts.new ≡ counts_after counts.old (lay_call (lent_by size table.now pixels.now) (sheet_of sheet counts.old) piece place) }
{
    sheet_refusal(size, table, pixels, sheet, counts)?;
    lay_refusal(size, table, sheet, piece, place)?;
    sheet_counts::move_piece(size, table, pixels, piece, place, Change::OneMore, counts);
    let laid = Entry { laid: true, place };
    Ok(record::with_entry(sheet, piece, laid))
}

// A piece laid: its entry holds the placement, and each pixel that it covers counts one more. Refused: 8 the job, 7, 8 a record or counts
// that no list of calls gives, 9 no such piece or turn not allowed, 13 laid already, 10 outside.
pub fn lay(
    size: JobSize,
    table: &[PieceEntry],
    pixels: &[u8],
    sheet: Record,
    counts: &mut [u8],
    piece: usize,
    place: Placement,
) -> SheetAnswer
    ensures value { result ≡ sheet_answer sheet (lay_call (lent_by size table.now pixels.now) (sheet_of sheet counts.old) piece place) }
    ensures counts_after { counts.new ≡ counts_after counts.old (lay_call (lent_by size table.now pixels.now) (sheet_of sheet counts.old) piece place) }
{
    let given = lay_on(size, table, pixels, sheet, counts, piece, place);
    record::answer(given, sheet)
}

// The record with a piece off, its pixels no longer counted, or the refusal of the withdraw.
fn withdraw_from(
    size: JobSize,
    table: &[PieceEntry],
    pixels: &[u8],
    sheet: Record,
    counts: &mut [u8],
    piece: usize,
) -> Result<Record, Refusal>
    ensures value { result ≡ record_answer (withdraw_call (lent_by size table.now pixels.now) (sheet_of sheet counts.old) piece) }
    ensures counts_after { counts.new ≡ counts_after counts.old (withdraw_call (lent_by size table.now pixels.now) (sheet_of sheet counts.old) piece) }
{
    sheet_refusal(size, table, pixels, sheet, counts)?;
    withdraw_refusal(size, table, sheet, piece)?;
    let entry = sheet_check::entry_of(sheet, piece);
    let place = entry.place;
    sheet_counts::move_piece(size, table, pixels, piece, place, Change::OneLess, counts);
    let off = record::origin();
    let free = Entry {
        laid: false,
        place: off,
    };
    Ok(record::with_entry(sheet, piece, free))
}

// A piece withdrawn: its entry is blank, and each pixel that it covered counts one less. Refused: 8 the job, 7, 8 a record or counts that
// no list of calls gives, 9 no such piece, 14 not laid, 15 locked.
pub fn withdraw(
    size: JobSize,
    table: &[PieceEntry],
    pixels: &[u8],
    sheet: Record,
    counts: &mut [u8],
    piece: usize,
) -> SheetAnswer
    ensures value { result ≡ sheet_answer sheet (withdraw_call (lent_by size table.now pixels.now) (sheet_of sheet counts.old) piece) }
    ensures counts_after { counts.new ≡ counts_after counts.old (withdraw_call (lent_by size table.now pixels.now) (sheet_of sheet counts.old) piece) }
{
    let given = withdraw_from(size, table, pixels, sheet, counts, piece);
    record::answer(given, sheet)
}
