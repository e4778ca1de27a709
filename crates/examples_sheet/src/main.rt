// Document 01's example job, a sheet of 2 rows and 4 columns with two full 2 x 2 pieces in turn 0, through the calls on the sheet of
// cover counts, with a gap of 1, which plays no part in them. Each line has the number of the refusal, 00 for a call that is taken up,
// whether piece 0 and piece 1 are laid, and the counts of the eight pixels. A line of setting a lock has the number and the two locks.
#![tactic(auto)]

ghost use Rattle.std.specs.Prelude.{◌<◌};

use job_lock_calls::{CUTTERS_STATION, PLANNERS_STATION};
use model::{Column, JobSize, PieceEntry, Placement, Record, Refusal, Row, Turn};
use sheet_calls::SheetAnswer;
use std::io;
use std::io::Stdout;

// The job's numbers, its table and its pixels.
const SIZE: JobSize = JobSize {
    rows: 2,
    columns: 4,
    count: 2,
    gap: 1,
};

const TABLE: [PieceEntry; 2] = [[2, 2, 1, 0], [2, 2, 1, 0]];

const PIXELS: [u8; 8] = [1, 1, 1, 1, 1, 1, 1, 1];

// A digit of a number below 10.
fn digit(k: u8) -> u8 {
    48 + k % 10
}

// The number of a refusal, or 0.
fn number(reply: Result<(), Refusal>) -> u8 {
    match reply {
        Ok(()) => 0,
        Err(refusal) => refusal.number,
    }
}

// 1 for a piece that is laid.
fn laid(sheet: Record, i: usize) -> u8
    requires { i < 64 }
{
    let entry = sheet.pieces[i];
    if entry.laid { 1 } else { 0 }
}

// One line.
fn show(out: Stdout, answer: SheetAnswer, counts: &[u8; 8]) -> io::Result<()> {
    let reply = answer.reply;
    let sheet = answer.sheet;
    let refusal = number(reply);
    let line = [
        digit(refusal / 10),
        digit(refusal),
        32,
        digit(laid(sheet, 0)),
        digit(laid(sheet, 1)),
        32,
        digit(counts[0]),
        digit(counts[1]),
        digit(counts[2]),
        digit(counts[3]),
        digit(counts[4]),
        digit(counts[5]),
        digit(counts[6]),
        digit(counts[7]),
        10,
    ];
    out.write_all(&line)
}

// A lay of a piece in turn 0 at a column of row 0.
fn lay(
    out: Stdout,
    sheet: Record,
    counts: &mut [u8; 8],
    piece: usize,
    x: u16,
) -> io::Result<Record> {
    let table = TABLE;
    let pixels = PIXELS;
    let place = Placement {
        turn: Turn::Zero,
        x: Column(x),
        y: Row(0),
    };
    let answer = sheet_calls::lay(SIZE, &table, &pixels, sheet, counts, piece, place);
    show(out, answer, counts)?;
    Ok(answer.sheet)
}

// A withdraw of a piece, with the locks of a table.
fn withdraw_from(
    out: Stdout,
    table: &[PieceEntry; 2],
    sheet: Record,
    counts: &mut [u8; 8],
    piece: usize,
) -> io::Result<Record> {
    let pixels = PIXELS;
    let answer = sheet_calls::withdraw(SIZE, table, &pixels, sheet, counts, piece);
    show(out, answer, counts)?;
    Ok(answer.sheet)
}

// A withdraw of a piece, none locked.
fn withdraw(out: Stdout, sheet: Record, counts: &mut [u8; 8], piece: usize) -> io::Result<Record> {
    let table = TABLE;
    withdraw_from(out, &table, sheet, counts, piece)
}

// The lock of a piece, asked for from a station.
fn lock(out: Stdout, table: &mut [PieceEntry; 2], piece: usize, station: usize) -> io::Result<()> {
    let pixels = PIXELS;
    let refusal = number(job_lock_calls::set_lock(SIZE, table, &pixels, piece, station));
    let line = [
        digit(refusal / 10),
        digit(refusal),
        b' ',
        b'l',
        b'o',
        b'c',
        b'k',
        b' ',
        digit(table[0][3]),
        digit(table[1][3]),
        10,
    ];
    out.write_all(&line)
}

// A fresh sheet.
fn fresh(out: Stdout, counts: &mut [u8; 8]) -> io::Result<Record> {
    let table = TABLE;
    let pixels = PIXELS;
    let answer = sheet_calls::fresh(SIZE, &table, &pixels, counts);
    show(out, answer, counts)?;
    Ok(answer.sheet)
}

// The same calls as one list, and after them a lay by degrees of no turn, which is refused like a turn that is not allowed.
fn run(out: Stdout, counts: &mut [u8; 8]) -> io::Result<()> {
    let table = TABLE;
    let pixels = PIXELS;
    let calls = [
        [0u16, 0, 0, 0, 0],
        [0, 0, 0, 2, 0],
        [0, 1, 0, 1, 0],
        [1, 0, 0, 0, 0],
        [1, 0, 0, 0, 0],
        [0, 0, 45, 0, 0],
    ];
    show(
        out,
        sheet_lists::run_calls(SIZE, &table, &pixels, &calls, counts),
        counts,
    )
}

fn main(rt: HostRuntime) -> io::Result<()> {
    let out = rt.stdout();
    let mut counts = [7u8; 8];
    let blank = fresh(out, &mut counts)?;
    let one = lay(out, blank, &mut counts, 0, 0)?;
    // laid already: 13
    let still = lay(out, one, &mut counts, 0, 2)?;
    let two = lay(out, still, &mut counts, 1, 1)?;
    let free = withdraw(out, two, &mut counts, 0)?;
    // not laid: 14
    let again = withdraw(out, free, &mut counts, 0)?;
    // outside: 10
    let outside = lay(out, again, &mut counts, 0, 3)?;
    // no such piece: 9
    let unknown = lay(out, outside, &mut counts, 2, 0)?;
    // from the planner's station: 16; from the cutter's the lock is set, and stays
    let mut table = TABLE;
    lock(out, &mut table, 1, PLANNERS_STATION)?;
    lock(out, &mut table, 1, CUTTERS_STATION)?;
    lock(out, &mut table, 1, CUTTERS_STATION)?;
    // no such piece: 9, before 16
    lock(out, &mut table, 2, PLANNERS_STATION)?;
    // locked: 15
    let locked = withdraw_from(out, &table, unknown, &mut counts, 1)?;
    // counts that no list of calls gives: 8
    counts[7] = 5;
    let _last = withdraw(out, locked, &mut counts, 1)?;
    run(out, &mut counts)
}
