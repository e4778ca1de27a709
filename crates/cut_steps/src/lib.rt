// The steps of a list of lines, in millimetres. Document 02, point 2.
#![tactic(auto)]

ghost use Rattle.std.specs.Prelude.{◌≡◌, map, get_or};
ghost use Rattle.model.specs.Piece.{point};
ghost use Rattle.model.specs.Buffer.{direction_of};
ghost use Rattle.model.specs.Cut.{entry_line, smaller_end, larger_end, lift, cut, step_at, step_in};
ghost use Rattle.cut_laws.specs.Exact.{LiftsTo, CutsTo, StepExact};

use cut_points::millimetres;
use model::{CutStep, LineEntry};

// The x of the point of a line at `along` in its direction.
fn x_at(entry: LineEntry, along: u16) -> u16
    ensures { result ≡ (point (direction_of (get_or entry 0 0)) along (get_or entry 1 0)).x }
{
    if entry[0] == 0 {
        return along;
    }
    entry[1]
}

// The y of that point.
fn y_at(entry: LineEntry, along: u16) -> u16
    ensures { result ≡ (point (direction_of (get_or entry 0 0)) along (get_or entry 1 0)).y }
{
    if entry[0] == 0 {
        return entry[1];
    }
    along
}

// Lift to the smaller end of a line.
fn lift_to(entry: LineEntry, pitch: u32) -> CutStep
    ensures is { result ≡ step_in pitch (lift (smaller_end (entry_line entry))) }
    ensures exact { LiftsTo pitch (smaller_end (entry_line entry)) result }
{
    let x = millimetres(x_at(entry, entry[2]), pitch);
    let y = millimetres(y_at(entry, entry[2]), pitch);
    CutStep::Lift(x, y)
}

// Cut to the larger end of a line.
fn cut_to(entry: LineEntry, pitch: u32) -> CutStep
    ensures is { result ≡ step_in pitch (cut (larger_end (entry_line entry))) }
    ensures exact { CutsTo pitch (larger_end (entry_line entry)) result }
{
    let x = millimetres(x_at(entry, entry[3]), pitch);
    let y = millimetres(y_at(entry, entry[3]), pitch);
    CutStep::Cut(x, y)
}

// Step number `step` of the lines: two for each line, then done. No pitch and no entry makes a number that is rounded.
pub fn step_of(lines: &[LineEntry], pitch: u32, step: u64) -> CutStep
    ensures is { result ≡ step_in pitch (step_at (map entry_line lines.now) step) }
    ensures exact { StepExact (map entry_line lines.now) pitch step result }
{
    let line = (step / 2) as usize;
    if lines.len() <= line {
        return CutStep::Done;
    }
    let entry = lines[line];
    let even = step % 2 == 0;
    if even {
        return lift_to(entry, pitch);
    }
    cut_to(entry, pitch)
}
