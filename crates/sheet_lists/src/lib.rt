// Lists of calls from a fresh sheet, each through the public calls: what demand 2 says of every such list holds of what this code leaves.
#![tactic(auto)]

ghost use Rattle.std.specs.Prelude.{Ok, ◌≡◌, length};
ghost use Rattle.model.specs.Lent.{lent_by, job_of};
ghost use Rattle.model.specs.Calls.{counts_after};
ghost use Rattle.model.specs.Cover.{afterwards, called, after_calls};
ghost use Rattle.cover_laws.specs.CoverClaims.{CoverHolds};
ghost use Rattle.sheet_calls.specs.Answers.{blank_record, sheet_answer};
ghost use Rattle.sheet_refusals.specs.Causes.{sheet_of};
ghost use Rattle.sheet_calls.specs.Ready.{SheetReady};
ghost use Rattle.sheet_lists.specs.CallList.{call_of, calls_of, run_outcome};

use c_interface::{piece_with_turn, placement_of};
use model::{JobSize, PieceEntry, Record};
use sheet_calls::SheetAnswer;

// One call of a list (specs/CallList.antt says how five numbers are a call): the record after it.
fn run_call(
    size: JobSize,
    table: &[PieceEntry],
    pixels: &[u8],
    sheet: Record,
    counts: &mut [u8],
    call: [u16; 5],
) -> Record
    requires { SheetReady (lent_by size table.now pixels.now) (sheet_of sheet counts.old) }
    ensures { sheet_of result counts.new ≡ afterwards (sheet_of sheet counts.old) (called (job_of (lent_by size table.now pixels.now)) (sheet_of sheet counts.old) (call_of call)) }
{
    let piece = call[1] as usize;
    if call[0] != 0 {
        let answer = sheet_calls::withdraw(size, table, pixels, sheet, counts, piece);
        return answer.sheet;
    }
    let known = piece_with_turn(call[2], piece);
    let place = placement_of(call[2], call[3], call[4]);
    let answer = sheet_calls::lay(size, table, pixels, sheet, counts, known, place);
    answer.sheet
}

// The calls of a list, one after another, from a sheet that passes the test: the record after them.
fn run_from(
    size: JobSize,
    table: &[PieceEntry],
    pixels: &[u8],
    first: Record,
    calls: &[[u16; 5]],
    counts: &mut [u8],
) -> Record
    requires { SheetReady (lent_by size table.now pixels.now) (sheet_of first counts.old) }
    ensures { sheet_of result counts.new ≡ after_calls (job_of (lent_by size table.now pixels.now)) (sheet_of first counts.old) (calls_of calls.now) }
{
    let mut sheet = first;
    for call in calls {
        sheet = run_call(size, table, pixels, sheet, counts, *call);
    }
    sheet
}

// The calls of a list from a fresh sheet, which is refused as `fresh` is. In the end each pixel's count is the number of laid pieces on it.
pub fn run_calls(
    size: JobSize,
    table: &[PieceEntry],
    pixels: &[u8],
    calls: &[[u16; 5]],
    counts: &mut [u8],
) -> SheetAnswer
    ensures value { result ≡ sheet_answer blank_record (run_outcome (lent_by size table.now pixels.now) (length counts.old) calls.now) }
    ensures counts_after { counts.new ≡ counts_after counts.old (run_outcome (lent_by size table.now pixels.now) (length counts.old) calls.now) }
    ensures cover_holds { result.reply ≡ Ok tt → CoverHolds (job_of (lent_by size table.now pixels.now)) (calls_of calls.now) (sheet_of result.sheet counts.new) }
{
    let start = sheet_calls::fresh(size, table, pixels, counts);
    let reply = start.reply;
    if let Err(_) = reply {
        return start;
    }
    let first = start.sheet;
    let sheet = run_from(size, table, pixels, first, calls, counts);
    let taken = Ok(());
    SheetAnswer {
        reply: taken,
        sheet,
    }
}
