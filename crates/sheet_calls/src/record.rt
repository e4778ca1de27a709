// The sheet record: entries made and replaced, and answers made of it.
ghost use Rattle.std.specs.Prelude.{◌≡◌, ◌<◌};
ghost use Rattle.model.specs.Layout.{origin};
ghost use Rattle.model.specs.Lent.{piece_bound};
ghost use Rattle.sheet_calls.specs.Answers.{blank_record, with_entry, answer_by};

use crate::SheetAnswer;
use model::{Column, Entry, PIECE_BOUND, Placement, Record, Refusal, Row, Turn};

// Turn 0 at corner (0, 0): the place in the entry of a piece that is not laid.
pub fn origin() -> Placement
    ensures { result ≡ origin }
{
    Placement {
        turn: Turn::Zero,
        x: Column(0),
        y: Row(0),
    }
}

// The record where nothing is laid.
pub fn blank_record() -> Record
    ensures { result ≡ blank_record }
{
    let entry = Entry {
        laid: false,
        place: origin(),
    };
    let pieces = [entry; PIECE_BOUND];
    Record { pieces }
}

// The record with another entry for piece i.
pub fn with_entry(mut sheet: Record, i: usize, entry: Entry) -> Record
    requires { i < piece_bound }
    ensures { result ≡ with_entry sheet i entry }
{
    sheet.pieces[i] = entry;
    sheet
}

// The answer of a call by the record that it gives, or its refusal: then the record is the one before.
pub fn answer(given: Result<Record, Refusal>, before: Record) -> SheetAnswer
    ensures { result ≡ answer_by before given }
{
    match given {
        Ok(sheet) => SheetAnswer {
            reply: Ok(()),
            sheet,
        },
        Err(refusal) => SheetAnswer {
            reply: Err(refusal),
            sheet: before,
        },
    }
}
