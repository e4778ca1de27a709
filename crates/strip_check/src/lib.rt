// Whether some piece of a box has just the given strips, by checks on strips and their neighbours alone.
#![tactic(auto)]

ghost use Rattle.std.specs.Prelude.{◌≡◌, true, ◌<◌, ◌≤◌, eqb, []};
ghost use lib.ListN.{length, get_or};
ghost use Rattle.model.specs.Bounded.{any_below, all_below};
ghost use Rattle.model.specs.Piece.{other};
ghost use Rattle.model.specs.Calls.{strips_well};
ghost use Rattle.strip_laws.specs.Strips.{side};
ghost use Rattle.strip_check.specs.Check.{ReadOf, as_strip, strip_in, fits_in, stands_before, follows, well_at, reaches, Whole};

use model::{Direction, StripEntry};

// A strip of a buffer.
#[derive(Clone, Copy)]
pub struct Strip {
    pub line: usize,
    pub first: usize,
    pub count: usize,
}

// The pixels along a line of the box.
fn line_length(direction: Direction, columns: usize, rows: usize) -> usize
    ensures { result ≡ side direction columns rows }
{
    match direction {
        Direction::Horizontal => columns,
        Direction::Vertical => rows,
    }
}

// The lines of the box.
fn line_count(direction: Direction, columns: usize, rows: usize) -> usize
    ensures { result ≡ side (other direction) columns rows }
{
    match direction {
        Direction::Horizontal => rows,
        Direction::Vertical => columns,
    }
}

// An entry of a buffer as a strip.
fn strip_of(entry: StripEntry) -> Strip
    ensures { ReadOf entry result }
{
    let [line, first, count] = entry;
    Strip {
        line: usize::from(line),
        first: usize::from(first),
        count: usize::from(count),
    }
}

// The strip at place i.
pub fn strip_at(strips: &[StripEntry], i: usize) -> Strip
    requires { i < length strips.now }
    ensures { ReadOf (get_or strips.now i []) result }
{
    strip_of(strips[i])
}

// The strip is not empty and lies in a box of so many lines of so many pixels.
fn fits(strip: Strip, length: usize, lines: usize) -> bool
    requires { (strip.first ≤ 255) × (strip.count ≤ 255) }
    ensures { result ≡ fits_in length lines (as_strip strip) }
{
    if strip.count == 0 {
        return false;
    }
    if lines <= strip.line {
        return false;
    }
    strip.first + strip.count <= length
}

// A strip stands before another: in an earlier line, or in the same line with a gap between them.
fn stands_before(strip: Strip, next: Strip) -> bool
    requires { (strip.first ≤ 255) × (strip.count ≤ 255) }
    ensures { result ≡ stands_before (as_strip strip) (as_strip next) }
{
    if strip.line < next.line {
        return true;
    }
    if next.line < strip.line {
        return false;
    }
    strip.first + strip.count < next.first
}

// The strip at place i is the first or stands behind the one before it.
fn in_order(strips: &[StripEntry], i: usize) -> bool
    requires { i < length strips.now }
    ensures { result ≡ follows strips.now i }
{
    if i == 0 {
        return true;
    }
    stands_before(strip_at(strips, i - 1), strip_at(strips, i))
}

// Each strip lies in the box and stands behind the one before it.
fn valid(strips: &[StripEntry], length: usize, lines: usize) -> bool
    ensures tested { result ≡ all_below (lib.ListN.length strips.now) (well_at length lines strips.now) }
    ensures whole { result ≡ true → Whole strips.now (lib.ListN.length strips.now) }
{
    (0..strips.len()).all(|i| fits(strip_at(strips, i), length, lines) && in_order(strips, i))
}

// Some strip lies in the line.
fn on_line(strips: &[StripEntry], line: usize) -> bool
    ensures { result ≡ any_below (length strips.now) (λ i. eqb (strip_in strips.now i).line line) }
{
    (0..strips.len()).any(|i| strip_at(strips, i).line == line)
}

// The strip holds the place along its line.
fn reaches_place(strip: Strip, place: usize) -> bool
    requires { (strip.first ≤ 255) × (strip.count ≤ 255) }
    ensures { result ≡ reaches place (as_strip strip) }
{
    if place < strip.first {
        return false;
    }
    place < strip.first + strip.count
}

// Some strip holds the place along its line.
fn at_place(strips: &[StripEntry], place: usize) -> bool
    ensures { result ≡ any_below (length strips.now) (λ i. reaches place (strip_in strips.now i)) }
{
    (0..strips.len()).any(|i| reaches_place(strip_at(strips, i), place))
}

// Some piece of the box has just these strips: they are valid, and the outer lines both ways hold a pixel.
pub fn strips_well(direction: Direction, columns: usize, rows: usize, strips: &[StripEntry]) -> bool
    requires { (0 < columns) × (0 < rows) }
    ensures { result ≡ strips_well direction columns rows strips.now }
{
    let length = line_length(direction, columns, rows);
    let lines = line_count(direction, columns, rows);
    if !valid(strips, length, lines) {
        return false;
    }
    if !on_line(strips, 0) {
        return false;
    }
    if !on_line(strips, lines - 1) {
        return false;
    }
    if !at_place(strips, 0) {
        return false;
    }
    let last = length - 1;
    at_place(strips, last)
}
