// Writing the pixels of strips into a pixel buffer, row by row of the box.
#![tactic(auto)]

ghost use Rattle.std.specs.Prelude.{◌≡◌, true, ◌++◌, map, ℕ, ◌+◌, ◌*◌, ◌<◌, ◌≤◌, length, drop, replicate};
ghost use Rattle.model.specs.Piece.{point};
ghost use Rattle.model.specs.Strip.{strip_has, strips_have};
ghost use Rattle.model.specs.Buffer.{entry_strip, filled, bytes_of};
ghost use Rattle.model.specs.Calls.{rebuilt_from, strips_well};
ghost use Rattle.strip_laws.specs.Strips.{StripFits};
ghost use Rattle.strip_check.specs.Check.{as_strip, strip_in};
ghost use Rattle.strip_paint.specs.Paint.{PaintRoom, Painted, same_point};

use model::{Direction, StripEntry};
use strip_check::{Strip, strip_at};

// Sets the pixel in column x and row y.
fn mark(pixels: &mut [u8], columns: usize, x: usize, y: usize)
    requires { (x < columns) × (y * columns + x < length pixels.old) }
    ensures { Painted columns (same_point (record { x = x; y = y })) pixels.old pixels.new }
{
    pixels[y * columns + x] = 1;
}

// Sets the pixel at the given coordinates along and across.
fn mark_cell(pixels: &mut [u8], columns: usize, direction: Direction, along: usize, line: usize)
    requires { ((point direction along line).x < columns) × ((point direction along line).y * columns + (point direction along line).x < length pixels.old) }
    ensures { Painted columns (same_point (point direction along line)) pixels.old pixels.new }
{
    match direction {
        Direction::Horizontal => mark(pixels, columns, along, line),
        Direction::Vertical => mark(pixels, columns, line, along),
    }
}

// Sets the pixels of a strip.
fn paint_strip(pixels: &mut [u8], columns: usize, rows: usize, direction: Direction, strip: Strip)
    requires { PaintRoom columns rows pixels.old × StripFits direction columns rows (as_strip strip) }
    ensures { Painted columns (strip_has direction (as_strip strip)) pixels.old pixels.new }
{
    let end = strip.first + strip.count;
    for at in strip.first..end {
        mark_cell(pixels, columns, direction, at, strip.line);
    }
}

// Sets the pixels of all strips.
fn paint_strips(
    pixels: &mut [u8],
    columns: usize,
    rows: usize,
    direction: Direction,
    strips: &[StripEntry],
)
    requires { PaintRoom columns rows pixels.old × ((i : ℕ) → i < length strips.now → StripFits direction columns rows (strip_in strips.now i)) }
    ensures { Painted columns (strips_have direction (map entry_strip strips.now)) pixels.old pixels.new }
{
    for i in 0..strips.len() {
        paint_strip(pixels, columns, rows, direction, strip_at(strips, i));
    }
}

// Clears the first pixels.
fn clear(pixels: &mut [u8], area: usize)
    requires { area ≤ length pixels.old }
    ensures { pixels.new ≡ replicate area 0 ++ drop area pixels.old }
{
    pixels[..area].fill(0);
}

// Writes the pixel bytes of the set that the strips make.
pub fn write(
    direction: Direction,
    columns: usize,
    rows: usize,
    strips: &[StripEntry],
    pixels: &mut [u8],
)
    requires { PaintRoom columns rows pixels.old × (strips_well direction columns rows strips.now ≡ true) }
    ensures { pixels.new ≡ filled (bytes_of (rebuilt_from direction columns rows strips.now)) pixels.old }
{
    clear(pixels, columns * rows);
    paint_strips(pixels, columns, rows, direction, strips);
}
