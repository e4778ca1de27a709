// The sheet record as a lent buffer: for each of the 64 piece numbers laid (1 or 0), degrees, x, y.
ghost use Rattle.std.specs.Prelude.{◌≡◌};
ghost use Rattle.c_interface.specs.Records.{entry_numbers, entry_of_numbers, record_numbers, record_in, stray_entry};

use model::{Entry, PIECE_BOUND, Record};

// The entry that no list of calls gives.
fn stray_entry() -> Entry
    ensures { result ≡ stray_entry }
{
    let place = crate::placement_of(0, 1, 0);
    Entry {
        laid: false,
        place: place,
    }
}

// The entry that four numbers are.
fn entry_of(numbers: [u16; 4]) -> Entry
    ensures { result ≡ entry_of_numbers numbers }
{
    let laid = numbers[0];
    let stray = laid > 1;
    if stray {
        return stray_entry();
    }
    let turn = numbers[1];
    if layout_places::turn_of(turn).is_none() {
        return stray_entry();
    }
    let place = crate::placement_of(turn, numbers[2], numbers[3]);
    Entry {
        laid: laid == 1,
        place: place,
    }
}

// An entry as four numbers.
fn numbers_of(entry: Entry) -> [u16; 4]
    ensures { result ≡ entry_numbers entry }
{
    let place = entry.place;
    let turn = place.turn;
    let degrees = layout_places::degrees_of(turn);
    if entry.laid {
        return [1, degrees, place.x.0, place.y.0];
    }
    [0, degrees, place.x.0, place.y.0]
}

// The record that the numbers of 64 entries are.
fn record_of(numbers: [[u16; 4]; PIECE_BOUND]) -> Record
    ensures { result ≡ record_in numbers }
{
    let mut pieces = [stray_entry(); PIECE_BOUND];
    for i in 0..PIECE_BOUND {
        pieces[i] = entry_of(numbers[i]);
    }
    Record { pieces }
}

// The numbers of a record's 64 entries.
fn record_numbers(sheet: Record) -> [[u16; 4]; PIECE_BOUND]
    ensures { result ≡ record_numbers sheet.pieces }
{
    let pieces = sheet.pieces;
    let mut numbers = [[0u16; 4]; PIECE_BOUND];
    for piece in 0..PIECE_BOUND {
        numbers[piece] = numbers_of(pieces[piece]);
    }
    numbers
}

// The record that a buffer holds.
pub fn read_record(entries: &[[u16; 4]; PIECE_BOUND]) -> Record
    ensures { result ≡ record_in entries.now }
{
    let numbers = *entries;
    record_of(numbers)
}

// Writes a record to its buffer.
pub fn write_record(entries: &mut [[u16; 4]; PIECE_BOUND], sheet: Record)
    ensures { entries.new ≡ record_numbers sheet.pieces }
{
    *entries = record_numbers(sheet);
}
