// The marked examples of the shop, P1 to P12 of document 01, through the calls. Each line has the example's name and what the calls
// give. The pieces are A, A, B, B, D and E of document 01, on a sheet of 8 rows and 16 columns; P10 to P12 have a job of two A. The lines
// with two pieces for a name are further no-fit lines: a row past D's hole, and a column of B in another turn.
#![tactic(auto)]

use model::{
    ColumnOffset, Coordinate, Direction, End, JobSize, Line, PieceEntry, PlaceEntry, Refusal, Row,
    RowOffset, StripEntry, Turn,
};
use pair_nofit_calls::PieceInTurn;
use std::io;
use std::io::Stdout;

// The job's numbers, its table and its pixels.
const SIZE: JobSize = JobSize {
    rows: 8,
    columns: 16,
    count: 6,
    gap: 0,
};

const TABLE: [PieceEntry; 6] = [
    [2, 2, 15, 0],
    [2, 2, 15, 0],
    [2, 2, 15, 0],
    [2, 2, 15, 0],
    [3, 3, 15, 0],
    [1, 1, 15, 0],
];

const PIXELS: [u8; 26] = [
    1, 1, 1, 1, 1, 1, 1, 1, 1, 1, 1, 0, 1, 1, 1, 0, 1, 1, 1, 1, 0, 1, 1, 1, 1, 1,
];

// Two full 2 x 2 pieces in turn 0, for sheets of 2 rows.
const TWO_TABLE: [PieceEntry; 2] = [[2, 2, 1, 0], [2, 2, 1, 0]];

const TWO_PIXELS: [u8; 8] = [1, 1, 1, 1, 1, 1, 1, 1];

// A number behind a blank.
fn put(out: Stdout, n: u64) -> io::Result<()> {
    print!(out; " {n}")
}

// A byte behind a blank.
fn put_byte(out: Stdout, b: u8) -> io::Result<()> {
    put(out, b as u64)
}

// The end of a line.
fn end_line(out: Stdout) -> io::Result<()> {
    println!(out)
}

// A refusal's number.
fn put_refused(out: Stdout, number: u8) -> io::Result<()> {
    print!(out; " refused")?;
    put_byte(out, number)
}

// The strip at a place of a stretch, where there is one: its line, first and count.
fn put_strip(out: Stdout, strips: &[StripEntry], k: usize) -> io::Result<()> {
    if k < strips.len() {
        let strip = strips[k];
        print!(out; " ")?;
        put_byte(out, strip[0])?;
        put_byte(out, strip[1])?;
        put_byte(out, strip[2])?;
    }
    Ok(())
}

// Up to five strips of a stretch.
fn put_strips(out: Stdout, strips: &[StripEntry]) -> io::Result<()> {
    put_strip(out, strips, 0)?;
    put_strip(out, strips, 1)?;
    put_strip(out, strips, 2)?;
    put_strip(out, strips, 3)?;
    put_strip(out, strips, 4)
}

// Nine bytes of pixels.
fn put_pixels(out: Stdout, pixels: &[u8; 9]) -> io::Result<()> {
    print!(out; " ")?;
    put_byte(out, pixels[0])?;
    put_byte(out, pixels[1])?;
    put_byte(out, pixels[2])?;
    put_byte(out, pixels[3])?;
    put_byte(out, pixels[4])?;
    put_byte(out, pixels[5])?;
    put_byte(out, pixels[6])?;
    put_byte(out, pixels[7])?;
    put_byte(out, pixels[8])
}

// A small signed number behind a blank.
fn put_signed(out: Stdout, n: i32) -> io::Result<()> {
    if n < -2 || 3 < n {
        return print!(out; " far");
    }
    print!(out; " {n}")
}

// The run at a place: its first and count.
fn put_run(out: Stdout, runs: &[[i32; 2]; 8], k: usize) -> io::Result<()> {
    if k < 8 {
        let run = runs[k];
        put_signed(out, run[0])?;
        put_signed(out, run[1])?;
    }
    Ok(())
}

// How many runs there are, and up to two of them.
fn put_runs(out: Stdout, answer: Result<u64, Refusal>, runs: &[[i32; 2]; 8]) -> io::Result<()> {
    match answer {
        Err(refusal) => put_refused(out, refusal.number),
        Ok(count) => {
            put(out, count)?;
            if 0 < count {
                put_run(out, runs, 0)?;
            }
            if 1 < count {
                put_run(out, runs, 1)?;
            }
            Ok(())
        }
    }
}

// A depth or a penalty.
fn put_amount(out: Stdout, answer: Result<u64, Refusal>) -> io::Result<()> {
    match answer {
        Err(refusal) => put_refused(out, refusal.number),
        Ok(n) => put(out, n),
    }
}

// The word of an end.
fn put_end(out: Stdout, end: End) -> io::Result<()> {
    match end {
        End::Clear => print!(out; " clear"),
        End::Settled => print!(out; " settled"),
        End::Spent => print!(out; " spent"),
    }
}

// The row strips of a piece in these turns, and the pixels that they give again in a box of the side. The buffer holds nine 2s before.
fn show_rows(out: Stdout, turns: [u16; 6], piece: usize, side: u16) -> io::Result<()> {
    let table = TABLE;
    let pixels = PIXELS;
    let mut rows = [[0u8; 3]; 26];
    let mut row_starts = [0u32; 7];
    let mut columns = [[0u8; 3]; 26];
    let mut column_starts = [0u32; 7];
    let _ = strip_calls::strips(
        SIZE,
        &table,
        &pixels,
        &turns,
        &mut rows,
        &mut row_starts,
        &mut columns,
        &mut column_starts,
    );
    let stretch = strip_calls::stretch::stretch(
        SIZE,
        &table,
        &pixels,
        &turns,
        &rows,
        &row_starts,
        &columns,
        &column_starts,
        piece,
        Direction::Horizontal,
    );
    put_strips(out, stretch)?;
    let mut again = [2u8; 9];
    let _ = strip_rebuild_calls::rebuild(side, side, Direction::Horizontal, stretch, &mut again);
    put_pixels(out, &again)?;
    end_line(out)
}

// The no-fit row (the no-fit column if vertical) of two pieces at an offset, from their stretches: parts of the row store (the column
// store), which do not begin at its front but for piece 0. The second piece lies in turn 0.
fn put_no_fit<'a>(
    out: Stdout,
    turns: &[u16],
    row_strips: &'a [StripEntry],
    row_starts: &[u32],
    column_strips: &'a [StripEntry],
    column_starts: &[u32],
    i: usize,
    first: Turn,
    k: usize,
    direction: Direction,
    offset: i32,
) -> io::Result<()> {
    let table = TABLE;
    let pixels = PIXELS;
    let a = strip_calls::stretch::stretch(
        SIZE,
        &table,
        &pixels,
        turns,
        row_strips,
        row_starts,
        column_strips,
        column_starts,
        i,
        direction,
    );
    let b = strip_calls::stretch::stretch(
        SIZE,
        &table,
        &pixels,
        turns,
        row_strips,
        row_starts,
        column_strips,
        column_starts,
        k,
        direction,
    );
    let turned = PieceInTurn {
        piece: i,
        turn: first,
    };
    let other = PieceInTurn {
        piece: k,
        turn: Turn::Zero,
    };
    let mut runs = [[0i32; 2]; 8];
    match direction {
        Direction::Horizontal => {
            let row = RowOffset(offset);
            let answer = pair_nofit_calls::no_fit_row(
                SIZE, &table, &pixels, turned, a, other, b, row, &mut runs,
            );
            put_runs(out, answer, &runs)?;
        }
        Direction::Vertical => {
            let column = ColumnOffset(offset);
            let answer = pair_nofit_calls::no_fit_column(
                SIZE, &table, &pixels, turned, a, other, b, column, &mut runs,
            );
            put_runs(out, answer, &runs)?;
        }
    }
    end_line(out)
}

// The no-fit row or column of two pieces in these turns, with the stores that the strips call fills.
fn show_no_fit(
    out: Stdout,
    turns: [u16; 6],
    i: usize,
    first: Turn,
    k: usize,
    direction: Direction,
    offset: i32,
) -> io::Result<()> {
    let table = TABLE;
    let pixels = PIXELS;
    let mut rows = [[0u8; 3]; 26];
    let mut row_starts = [0u32; 7];
    let mut columns = [[0u8; 3]; 26];
    let mut column_starts = [0u32; 7];
    let _ = strip_calls::strips(
        SIZE,
        &table,
        &pixels,
        &turns,
        &mut rows,
        &mut row_starts,
        &mut columns,
        &mut column_starts,
    );
    put_no_fit(
        out,
        &turns,
        &rows,
        &row_starts,
        &columns,
        &column_starts,
        i,
        first,
        k,
        direction,
        offset,
    )
}

// The depths and the penalty of two pieces of a layout.
fn show_pair(out: Stdout, layout: [PlaceEntry; 6], i: usize, k: usize) -> io::Result<()> {
    let table = TABLE;
    let pixels = PIXELS;
    put_amount(
        out,
        pair_calls::depth(SIZE, &table, &pixels, &layout, i, k, Direction::Horizontal),
    )?;
    put_amount(
        out,
        pair_calls::depth(SIZE, &table, &pixels, &layout, i, k, Direction::Vertical),
    )?;
    put_amount(
        out,
        pair_calls::penalty(SIZE, &table, &pixels, &layout, i, k),
    )?;
    end_line(out)
}

// The job's numbers for a sheet of so many columns.
fn sheet(columns: usize) -> JobSize {
    JobSize {
        rows: 2,
        columns,
        count: 2,
        gap: 0,
    }
}

// A coordinate: its axis and its number.
fn put_coordinate(out: Stdout, place: Coordinate) -> io::Result<()> {
    match place {
        Coordinate::AtColumn(x) => {
            print!(out; " x")?;
            put(out, x.0 as u64)
        }
        Coordinate::AtRow(y) => {
            print!(out; " y")?;
            put(out, y.0 as u64)
        }
    }
}

// P10: the line search along row 0 past a piece at column 1, by weight 3.
fn show_search(out: Stdout) -> io::Result<()> {
    let table = TWO_TABLE;
    let pixels = TWO_PIXELS;
    let layout = [[0u16, 1, 0], [0, 0, 0]];
    let weights = [3u32];
    let answer = search_calls::line_search(
        sheet(4),
        &table,
        &pixels,
        &layout,
        &weights,
        1,
        Turn::Zero,
        Line::InRow(Row(0)),
    );
    match answer {
        Err(refusal) => put_refused(out, refusal.number)?,
        Ok(best) => {
            put_coordinate(out, best.at)?;
            put(out, best.sum)?;
        }
    }
    end_line(out)
}

// P11 and P12: a descent of two pieces at (0, 0), by weight 1.
fn show_descent(out: Stdout, columns: usize, budget: u32) -> io::Result<()> {
    let table = TWO_TABLE;
    let pixels = TWO_PIXELS;
    let mut layout = [[0u16, 0, 0], [0, 0, 0]];
    let weights = [1u32];
    let mut workspace = [0u64; 0];
    match run_descent_calls::descent(
        sheet(columns),
        &table,
        &pixels,
        &mut layout,
        &weights,
        budget,
        &mut workspace,
    ) {
        Err(refusal) => put_refused(out, refusal.number)?,
        Ok(ended) => {
            let end = ended.end;
            put_end(out, end)?;
            put(out, ended.sum)?;
            put(out, ended.made as u64)?;
            put(out, ended.moves as u64)?;
        }
    }
    end_line(out)
}

// P10 to P12.
fn show_two(out: Stdout) -> io::Result<()> {
    print!(out; "P10")?;
    show_search(out)?;
    print!(out; "P11")?;
    show_descent(out, 4, 5)?;
    print!(out; "P12")?;
    show_descent(out, 3, 5)?;
    print!(out; "P12")?;
    show_descent(out, 3, 4)
}

// P3 and P4; the row of D and E at row offset 1, where E fits into D's hole; the column of B at 90 and E at column offset 1, where B has
// both pixels, and at 0, where it has the lower one.
fn show_no_fits(out: Stdout) -> io::Result<()> {
    print!(out; "P3")?;
    show_no_fit(
        out,
        [0, 0, 0, 0, 0, 0],
        0,
        Turn::Zero,
        1,
        Direction::Horizontal,
        1,
    )?;
    print!(out; "P4")?;
    show_no_fit(
        out,
        [0, 0, 0, 0, 0, 0],
        0,
        Turn::Zero,
        1,
        Direction::Horizontal,
        2,
    )?;
    print!(out; "D E")?;
    show_no_fit(
        out,
        [0, 0, 0, 0, 0, 0],
        4,
        Turn::Zero,
        5,
        Direction::Horizontal,
        1,
    )?;
    print!(out; "B E")?;
    show_no_fit(
        out,
        [0, 0, 90, 0, 0, 0],
        2,
        Turn::Quarter,
        5,
        Direction::Vertical,
        1,
    )?;
    print!(out; "B E")?;
    show_no_fit(
        out,
        [0, 0, 90, 0, 0, 0],
        2,
        Turn::Quarter,
        5,
        Direction::Vertical,
        0,
    )
}

fn main(rt: HostRuntime) -> io::Result<()> {
    let out = rt.stdout();
    print!(out; "P1")?;
    show_rows(out, [0, 0, 0, 0, 0, 0], 4, 3)?;
    print!(out; "P2")?;
    show_rows(out, [0, 0, 90, 0, 0, 0], 2, 2)?;
    show_no_fits(out)?;
    print!(out; "P5")?;
    show_pair(
        out,
        [
            [0, 0, 0],
            [0, 1, 0],
            [0, 0, 0],
            [0, 0, 0],
            [0, 0, 0],
            [0, 0, 0],
        ],
        0,
        1,
    )?;
    print!(out; "P6")?;
    show_pair(
        out,
        [
            [0, 0, 0],
            [0, 0, 0],
            [0, 0, 0],
            [0, 0, 0],
            [0, 0, 0],
            [0, 0, 0],
        ],
        0,
        1,
    )?;
    print!(out; "P7")?;
    show_pair(
        out,
        [
            [0, 0, 0],
            [0, 0, 0],
            [0, 0, 0],
            [0, 0, 0],
            [0, 0, 0],
            [0, 1, 1],
        ],
        4,
        5,
    )?;
    print!(out; "P8")?;
    show_pair(
        out,
        [
            [0, 0, 0],
            [0, 0, 0],
            [0, 0, 0],
            [0, 0, 0],
            [0, 0, 0],
            [0, 1, 0],
        ],
        4,
        5,
    )?;
    print!(out; "P9")?;
    show_pair(
        out,
        [
            [0, 0, 0],
            [0, 0, 0],
            [0, 0, 0],
            [180, 1, 0],
            [0, 0, 0],
            [0, 0, 0],
        ],
        2,
        3,
    )?;
    show_two(out)
}
