// The cut list of document 02, point 2, through the calls: two full 2 x 2 pieces side by side, with their steps at a pitch of 96 (1.5 mm),
// and a ring, its hole filled by a single pixel and then free: the hole is cut once either way. A line is its direction, its pixel
// line, and where it begins and ends; a step tells whole thousandths of a millimetre.
#![tactic(auto)]

use cut_line_calls::cut_lines;
use cut_step_calls::{cut_step, line_step};
use model::{CutStep, JobSize, LineEntry, PieceEntry, PlaceEntry, Refusal};
use std::io;
use std::io::Stdout;

const TWO: JobSize = JobSize {
    rows: 2,
    columns: 4,
    count: 2,
    gap: 0,
};

const TWO_TABLE: [PieceEntry; 2] = [[2, 2, 1, 0], [2, 2, 1, 0]];

const TWO_PIXELS: [u8; 8] = [1, 1, 1, 1, 1, 1, 1, 1];

const SIDE_BY_SIDE: [PlaceEntry; 2] = [[0, 0, 0], [0, 2, 0]];

const OVER: [PlaceEntry; 2] = [[0, 0, 0], [0, 1, 0]];

const RING: JobSize = JobSize {
    rows: 4,
    columns: 5,
    count: 2,
    gap: 0,
};

const RING_TABLE: [PieceEntry; 2] = [[3, 3, 1, 0], [1, 1, 1, 0]];

const RING_PIXELS: [u8; 10] = [1, 1, 1, 1, 0, 1, 1, 1, 1, 1];

const IN_THE_HOLE: [PlaceEntry; 2] = [[0, 1, 0], [0, 2, 1]];

const RING_ALONE: JobSize = JobSize {
    rows: 4,
    columns: 5,
    count: 1,
    gap: 0,
};

// A number behind a blank.
fn put(out: Stdout, n: u64) -> io::Result<()> {
    print!(out; " {n}")
}

// A small number behind a blank.
fn put_small(out: Stdout, n: u16) -> io::Result<()> {
    put(out, n as u64)
}

// The end of a line.
fn end_line(out: Stdout) -> io::Result<()> {
    println!(out)
}

// A refusal: its number and its places.
fn put_refusal(out: Stdout, refusal: Refusal) -> io::Result<()> {
    print!(out; "refused")?;
    put(out, refusal.number as u64)?;
    put(out, refusal.first as u64)?;
    put(out, refusal.second as u64)?;
    end_line(out)
}

// The line with number k, if there is one.
fn put_line(out: Stdout, lines: &[LineEntry], count: u64, k: usize) -> io::Result<()> {
    if count <= k as u64 {
        return Ok(());
    }
    if lines.len() <= k {
        return Ok(());
    }
    let entry = lines[k];
    print!(out; "line")?;
    put_small(out, entry[0])?;
    put_small(out, entry[1])?;
    put_small(out, entry[2])?;
    put_small(out, entry[3])?;
    end_line(out)
}

// The first eight lines of a layout, and how many there are.
fn show_lines(
    out: Stdout,
    size: JobSize,
    table: &[PieceEntry],
    pixels: &[u8],
    layout: &[PlaceEntry],
) -> io::Result<()> {
    let mut lines = [[0u16; 4]; 8];
    match cut_lines(size, table, pixels, layout, &mut lines) {
        Err(refusal) => put_refusal(out, refusal),
        Ok(count) => {
            print!(out; "lines")?;
            put(out, count)?;
            end_line(out)?;
            put_line(out, &lines, count, 0)?;
            put_line(out, &lines, count, 1)?;
            put_line(out, &lines, count, 2)?;
            put_line(out, &lines, count, 3)?;
            put_line(out, &lines, count, 4)?;
            put_line(out, &lines, count, 5)?;
            put_line(out, &lines, count, 6)?;
            put_line(out, &lines, count, 7)
        }
    }
}

// The whole part of a number, 0 where it is below 0 or too large.
fn whole_part(x: f64) -> u64 {
    if x > -1.0 {
        if x < 18446744073709551616.0 {
            return std::num::truncating_f64_to_u64(x);
        }
    }
    0
}

// A point in thousandths of a millimetre.
fn put_point(out: Stdout, x: f64, y: f64) -> io::Result<()> {
    put(out, whole_part(x * 1000.0))?;
    put(out, whole_part(y * 1000.0))?;
    end_line(out)
}

// A step.
fn put_step(out: Stdout, step: CutStep) -> io::Result<()> {
    match step {
        CutStep::Lift(x, y) => {
            print!(out; "lift")?;
            put_point(out, x, y)
        }
        CutStep::Cut(x, y) => {
            print!(out; "cut")?;
            put_point(out, x, y)
        }
        CutStep::Done => println!(out; "done"),
    }
}

// An answer for a step.
fn put_answer(out: Stdout, answer: Result<CutStep, Refusal>) -> io::Result<()> {
    match answer {
        Err(refusal) => put_refusal(out, refusal),
        Ok(step) => put_step(out, step),
    }
}

// A step of the two pieces side by side.
fn show_step(out: Stdout, step: u64) -> io::Result<()> {
    put_answer(
        out,
        cut_step(TWO, &TWO_TABLE, &TWO_PIXELS, &SIDE_BY_SIDE, 96, step),
    )
}

fn main(rt: HostRuntime) -> io::Result<()> {
    let out = rt.stdout();
    show_lines(out, TWO, &TWO_TABLE, &TWO_PIXELS, &SIDE_BY_SIDE)?;
    show_step(out, 0)?;
    show_step(out, 1)?;
    show_step(out, 6)?;
    show_step(out, 9)?;
    show_step(out, 10)?;
    show_step(out, 18446744073709551615)?;
    show_lines(out, TWO, &TWO_TABLE, &TWO_PIXELS, &OVER)?;
    show_lines(out, RING, &RING_TABLE, &RING_PIXELS, &IN_THE_HOLE)?;
    show_lines(
        out,
        RING_ALONE,
        &RING_TABLE[..1],
        &RING_PIXELS[..9],
        &IN_THE_HOLE[..1],
    )?;
    put_answer(out, line_step(&[[1, 3, 1, 2]], 1, 1))?;
    put_answer(out, line_step(&[[1, 3, 1, 2]], 4097, 1))
}
