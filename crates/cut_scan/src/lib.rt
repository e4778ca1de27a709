// The lines to cut, read from the owners of the sheet's pixels, one pixel line after another along either direction. Document 02, point 2.
#![tactic(auto)]

ghost use Rattle.std.specs.Prelude.{◌≡◌, List, [], map, ℕ, ◌+◌, ◌-◌, ◌*◌, ◌<◌, ◌≤◌, ◌^◌, set};
ghost use Rattle.model.specs.Strip.{Strip, strip_of, closing, strips};
ghost use Rattle.model.specs.Lent.{column_bound};
ghost use Rattle.model.specs.Buffer.{direction_number};
ghost use Rattle.cut_scan.specs.Scan.{owner_at, side_at, grid_units, SmallGrid, row_from, LinesAppended, Left};

use model::{Direction, LineEntry};

// The owners as a direction sees them: how many pixels lie along each of so many lines across, and how far apart in the buffer two
// neighbours are, along the direction and across it.
#[derive(Clone, Copy)]
pub struct Grid {
    pub length: usize,
    pub lines: usize,
    pub along: usize,
    pub across: usize,
}

// The owner of the pixel at the given coordinates along and across: 0 past the last line.
fn owner_at(owners: &[u8], grid: Grid, a: usize, c: usize) -> u8
    requires { SmallGrid grid × (a < grid.length) }
    ensures { result ≡ owner_at owners.now grid a c }
{
    if grid.lines <= c {
        return 0;
    }
    let index = a * grid.along + c * grid.across;
    if owners.len() <= index {
        return 0;
    }
    owners[index]
}

// Whether the unit a of line c is a side: the pixels before and after it have different owners.
fn is_side(owners: &[u8], grid: Grid, a: usize, c: usize) -> bool
    requires { SmallGrid grid × (a < grid.length) }
    ensures { result ≡ side_at owners.now grid a c }
{
    let after = owner_at(owners, grid, a, c);
    if c == 0 {
        return 0 != after;
    }
    owner_at(owners, grid, a, c - 1) != after
}

// The number of a direction in an entry.
fn direction_number(direction: Direction) -> u16
    ensures { result ≡ direction_number direction }
{
    match direction {
        Direction::Horizontal => 0,
        Direction::Vertical => 1,
    }
}

// Stores a line, where there is room for it.
fn put(lines: &mut [LineEntry], at: usize, entry: LineEntry)
    ensures { lines.new ≡ set lines.old at entry }
{
    if at < lines.len() {
        lines[at] = entry;
    }
}

// Stores the line of the `run` units before `end`, if there are any, and tells where the next line would stand.
fn close_run(
    direction: Direction,
    line: usize,
    end: usize,
    run: usize,
    lines: &mut [LineEntry],
    at: usize,
) -> usize
    requires { (line ≤ column_bound) × (end ≤ column_bound) × (run ≤ end) × (at ≤ 2 ^ 40) }
    ensures stored { LinesAppended direction (map (strip_of line) (closing end run [])) lines.old at lines.new result }
    ensures next { result ≤ at + 1 }
{
    if run == 0 {
        return at;
    }
    let first = end - run;
    let entry = [
        direction_number(direction),
        line as u16,
        first as u16,
        end as u16,
    ];
    put(lines, at, entry);
    at + 1
}

// Where the next line stands, and how many units just passed are sides.
#[derive(Clone, Copy)]
struct Passed {
    at: usize,
    run: usize,
}

// Passes the unit a of a line: one more side, or the end of a run.
fn pass_unit(
    owners: &[u8],
    grid: Grid,
    direction: Direction,
    line: usize,
    a: usize,
    run: usize,
    lines: &mut [LineEntry],
    at: usize,
) -> Passed
    requires { SmallGrid grid × (a < grid.length) × (line ≤ column_bound) × (run ≤ a) × (at ≤ 2 ^ 40) }
    ensures left { (before : List (List ℕ)) (from : ℕ) (all : List Strip) → Left direction before from (row_from owners.now grid line a run) lines.old at all → Left direction before from (row_from owners.now grid line (a + 1) result.run) lines.new result.at all }
    ensures next { (result.at ≤ at + 1) × (result.run ≤ a + 1) }
{
    if is_side(owners, grid, a, line) {
        return Passed {
            at: at,
            run: run + 1,
        };
    }
    Passed {
        at: close_run(direction, line, a, run, lines, at),
        run: 0,
    }
}

// Stores the lines on one pixel line from `at` on, and tells where the next line would stand.
fn put_row(
    owners: &[u8],
    grid: Grid,
    direction: Direction,
    line: usize,
    lines: &mut [LineEntry],
    at: usize,
) -> usize
    requires { SmallGrid grid × (line ≤ column_bound) × (at ≤ 2 ^ 36) }
    ensures stored { LinesAppended direction (row_from owners.now grid line 0 0) lines.old at lines.new result }
    ensures next { result ≤ at + 4097 }
{
    let length = grid.length;
    let mut next = at;
    let mut run = 0;
    for a in 0..length {
        let passed = pass_unit(owners, grid, direction, line, a, run, lines, next);
        next = passed.at;
        run = passed.run;
    }
    close_run(direction, line, length, run, lines, next)
}

// Stores the lines along a direction from `at` on, as far as there is room, and tells where the next line would stand.
pub fn put_lines(
    owners: &[u8],
    grid: Grid,
    direction: Direction,
    lines: &mut [LineEntry],
    at: usize,
) -> usize
    requires { SmallGrid grid × (at ≤ 2 ^ 32) }
    ensures stored { LinesAppended direction (strips direction (grid_units direction owners.now grid)) lines.old at lines.new result }
    ensures next { result ≤ at + 4097 * 4097 }
{
    let count = grid.lines;
    let mut next = at;
    for line in 0..=count {
        next = put_row(owners, grid, direction, line, lines, next);
    }
    next
}
