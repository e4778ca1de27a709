// Reads document 01's example job and some others, each from its text, and writes what the reader answers: the job's numbers with the gap,
// its first entry with the lock, its first eight pixel bytes and whether the check of a lent job passes; or the refusal's number and line.
// Then lends a piece with gaps and locks that no text has or has.
#![tactic(auto)]

use model::{JobSize, PieceEntry};
use std::io;
use std::io::Stdout;

// A number behind a comma.
fn put(out: Stdout, n: u64) -> io::Result<()> {
    print!(out; ",{n}")
}

// An entry: l, w, o and the lock.
fn put_entry(out: Stdout, e: PieceEntry) -> io::Result<()> {
    put(out, e[0] as u64)?;
    put(out, e[1] as u64)?;
    put(out, e[2] as u64)?;
    put(out, e[3] as u64)
}

// A pixel byte as its mark.
fn put_mark(out: Stdout, b: u8) -> io::Result<()> {
    if b == 1 {
        return print!(out; "#");
    }
    print!(out; ".")
}

// Four pixel bytes.
fn put_marks(out: Stdout, b: [u8; 4]) -> io::Result<()> {
    put_mark(out, b[0])?;
    put_mark(out, b[1])?;
    put_mark(out, b[2])?;
    put_mark(out, b[3])
}

// What the reader answers for a text.
fn show(out: Stdout, text: &[u8]) -> io::Result<()> {
    let mut table = [[0u8; 4]; 4];
    let mut pixels = [0u8; 16];
    match job_calls::read_job(text, &mut table, &mut pixels) {
        Err(r) => {
            print!(out; "refused")?;
            put(out, r.number as u64)?;
            put(out, r.first as u64)?;
            println!(out)
        }
        Ok(size) => {
            print!(out; "read")?;
            put(out, size.rows as u64)?;
            put(out, size.columns as u64)?;
            put(out, size.count as u64)?;
            put(out, size.gap as u64)?;
            put_entry(out, table[0])?;
            print!(out; ",")?;
            put_marks(out, [pixels[0], pixels[1], pixels[2], pixels[3]])?;
            put_marks(out, [pixels[4], pixels[5], pixels[6], pixels[7]])?;
            if job_check::check_job(size, &table, &pixels) {
                print!(out; ",checked")?;
            }
            println!(out)
        }
    }
}

// Jobs that are read.
fn show_read(out: Stdout) -> io::Result<()> {
    show(
        out,
        b"job,1,2,4,2\npiece,0,2,2,1\nrow,##\nrow,##\npiece,1,2,2,1\nrow,##\nrow,##\n",
    )?;
    show(out, b"job,1,512,128,1\npiece,0,3,2,15\nrow,###\nrow,#..\n")?;
    show(out, b"job,1,1,1,1\npiece,0,1,1,1\nrow,#\n")?;
    show(out, b"job,2,1,1,1,0\npiece,0,1,1,1\nrow,#\n")?;
    show(
        out,
        b"job,2,2,4,2,1\npiece,0,2,2,1\nrow,##\nrow,##\npiece,1,2,2,1\nrow,##\nrow,##\n",
    )?;
    show(
        out,
        b"job,2,512,128,1,8\npiece,0,3,2,15\nrow,###\nrow,#..\n",
    )?;
    show(out, b"job,3,1,1,1,0\npiece,0,1,1,1,0\nrow,#\n")?;
    show(
        out,
        b"job,3,2,4,2,1\npiece,0,2,2,1,1\nrow,##\nrow,##\npiece,1,2,2,1,0\nrow,##\nrow,##\n",
    )
}

// Lines of wrong form.
fn show_wrong_form(out: Stdout) -> io::Result<()> {
    show(out, b"")?;
    show(out, b"job,2,2,4,1\n")?;
    show(out, b"job,1,2,4,1,0\n")?;
    show(out, b"job,3,2,4,1\n")?;
    show(out, b"job,4,2,4,1,0\n")?;
    show(out, b"job,2,2,4,1,08\n")?;
    show(out, b"job,1,02,4,1\n")?;
    show(out, b"job,1,2,4,1\npiece,0,2,2,1\nrow,##\n")?;
    show(out, b"job,1,2,4,1\npiece,0,2,2,1\nrow,##\nrow,###\n")?;
    show(out, b"job,1,1,1,1\npiece,0,1,1,1\nrow,#\n\n")?;
    show(out, b"job,2,1,1,1,0\npiece,0,1,1,1,0\nrow,#\n")?;
    show(out, b"job,3,1,1,1,0\npiece,0,1,1,1\nrow,#\n")?;
    show(out, b"job,3,1,1,1,0\npiece,0,1,1,1,01\nrow,#\n")
}

// Numbers out of range, areas, boxes and buffers.
fn show_refused(out: Stdout) -> io::Result<()> {
    show(out, b"job,1,513,4,1\n")?;
    show(out, b"job,2,2,4,1,9\n")?;
    show(out, b"job,1,512,129,1\n")?;
    show(out, b"job,1,2,4,1\npiece,0,2,2,2\n")?;
    show(out, b"job,3,2,4,1,0\npiece,0,2,2,1,2\n")?;
    show(out, b"job,1,2,4,1\npiece,0,5,2,1\n")?;
    show(out, b"job,1,2,4,1\npiece,0,2,2,1\nrow,..\nrow,##\n")?;
    show(out, b"job,1,2,4,1\npiece,0,2,2,1\nrow,#.\nrow,#.\n")?;
    show(
        out,
        b"job,1,1,17,1\npiece,0,17,1,1\nrow,#################\n",
    )
}

// A full 2 x 2 piece on a sheet of 2 rows and 4 columns, lent with a gap and a lock.
fn show_lent(out: Stdout, gap: usize, lock: u8) -> io::Result<()> {
    let size = JobSize {
        rows: 2,
        columns: 4,
        count: 1,
        gap,
    };
    let table = [[2u8, 2, 1, lock]];
    let pixels = [1u8; 4];
    print!(out; "lent")?;
    put(out, gap as u64)?;
    put(out, lock as u64)?;
    if job_check::check_job(size, &table, &pixels) {
        print!(out; ",checked")?;
    }
    println!(out)
}

fn main(rt: HostRuntime) -> io::Result<()> {
    let out = rt.stdout();
    show_read(out)?;
    show_wrong_form(out)?;
    show_refused(out)?;
    show_lent(out, 0, 0)?;
    show_lent(out, 8, 1)?;
    show_lent(out, 9, 0)?;
    show_lent(out, 0, 2)
}
