// The reader of a layout text: the layout line, a line for each piece, and nothing behind them. Each line is asked for its form
// first, then for its numbers. Document 01, 'Start, layout text, sheet' and 'When a call says no'.
#![tactic(auto)]

ghost use Rattle.std.specs.Prelude.{◌≡◌, true, ◌&&◌, List, ℕ, ◌<◌, ◌≤◌, min, eqb, length, set};
ghost use Rattle.std.proofs.lemmas.List.Edits.{sets};
ghost use Rattle.model.specs.Answers.{done_answer};
ghost use Rattle.model.specs.Layout.{Layout};
ghost use Rattle.model.specs.Refusal.{given, refusal_of};
ghost use Rattle.model.specs.Lent.{lent_by, job_of, row_bound, column_bound};
ghost use Rattle.model.specs.Buffer.{entry_of, entries_of};
ghost use Rattle.model.specs.Text.{cause_in};
ghost use Rattle.model.specs.LayoutText.{layout_line, placement_line, placements_at};
ghost use Rattle.model.specs.Calls.{read_layout_call, layout_after};
ghost use Rattle.layout_places.specs.Answers.{turn_answer};
ghost use Rattle.layout_places.specs.Fitting.{Fitting};
ghost use Rattle.layout_read_calls.specs.Readings.{numbers_of, turn_on_line, place_on_line, layout_from, position_answer, position_in, place_answer, line_answer, line_next};

use model::{Column, JobSize, PieceEntry, PlaceEntry, Placement, Refusal, Row, Turn, refused};
use text_numbers::line_at;

// The numbers of a piece's line.
#[derive(Clone, Copy)]
struct PlacementFields {
    number: usize,
    degrees: usize,
    x: usize,
    y: usize,
}

// A piece's placement and the position after its line.
#[derive(Clone, Copy)]
struct PlacedLine {
    place: Placement,
    next: usize,
}

// A refusal that names a line.
fn refused_in(line: u32, number: u8) -> Refusal
    ensures { result ≡ refusal_of (cause_in line number true) }
{
    Refusal {
        number,
        first: line,
        second: 0,
    }
}

// W, L and n of the layout line are the job's.
fn same_sheet(size: JobSize, rows: usize, columns: usize, count: usize) -> bool
    ensures { result ≡ (eqb rows size.rows && eqb columns size.columns && eqb count size.count) }
{
    if rows != size.rows {
        return false;
    }
    if columns != size.columns {
        return false;
    }
    count == size.count
}

// The layout line, `layout,1,W,L,n`: the position after it.
fn layout_line(size: JobSize, text: &[u8]) -> Result<usize, Refusal>
    ensures { ((table : List (List ℕ)) (pixels : List ℕ) → result ≡ position_answer (layout_line (job_of (lent_by size table pixels)) text.now)) × (position_in result ≤ length text.now) }
{
    let Some(line) = line_at(text, 0, b"layout,1,", 3) else {
        return Err(refused_in(1, 1));
    };
    let numbers = line.numbers;
    if !same_sheet(size, numbers[0], numbers[1], numbers[2]) {
        return Err(refused_in(1, 2));
    }
    Ok(line.next)
}

// The turn on the line of piece i, if the line names that piece and the degrees are those of a turn.
fn turn_on_line(i: usize, number: usize, degrees: usize) -> Option<Turn>
    ensures { result ≡ turn_answer (turn_on_line i number degrees) }
{
    if number != i {
        return None;
    }
    let above = 270 < degrees;
    if above {
        return None;
    }
    layout_places::turn_of(degrees as u16)
}

// A field as a coordinate. One above 65,535 stands as 65,535: both lie outside every sheet.
fn clipped(field: usize) -> u16
    ensures { result ≡ min field 65535 }
{
    if 65535 < field {
        return 65535;
    }
    field as u16
}

// The placement that the numbers of piece i's line give.
fn placement_of(
    size: JobSize,
    table: &[PieceEntry],
    i: usize,
    line: u32,
    fields: PlacementFields,
) -> Result<Placement, Refusal>
    requires { (i < length table.now) × (size.rows ≤ row_bound) × (size.columns ≤ column_bound) }
    ensures { (pixels : List ℕ) → result ≡ place_answer (place_on_line (job_of (lent_by size table.now pixels)) i line (numbers_of fields)) }
{
    let Some(turn) = turn_on_line(i, fields.number, fields.degrees) else {
        return Err(refused_in(line, 2));
    };
    if !layout_places::allowed(table, i, turn) {
        return Err(refused_in(line, 9));
    }
    let x = Column(clipped(fields.x));
    let y = Row(clipped(fields.y));
    if !layout_places::inside_at(size, table, i, turn, x, y) {
        return Err(refused_in(line, 10));
    }
    Ok(Placement { turn, x, y })
}

// The line of piece i at position p, `at,i,turn,x,y`.
fn placement_line(
    size: JobSize,
    table: &[PieceEntry],
    text: &[u8],
    i: usize,
    p: usize,
    line: u32,
) -> Result<PlacedLine, Refusal>
    requires { (i < length table.now) × (size.rows ≤ row_bound) × (size.columns ≤ column_bound) × (p ≤ length text.now) }
    ensures { ((pixels : List ℕ) → result ≡ line_answer (placement_line (job_of (lent_by size table.now pixels)) text.now i p line)) × (line_next result ≤ length text.now) }
{
    let Some(read) = line_at(text, p, b"at,", 4) else {
        return Err(refused_in(line, 1));
    };
    let numbers = read.numbers;
    let fields = PlacementFields {
        number: numbers[0],
        degrees: numbers[1],
        x: numbers[2],
        y: numbers[3],
    };
    let place = placement_of(size, table, i, line, fields)?;
    Ok(PlacedLine {
        place,
        next: read.next,
    })
}

// Sets the entry of piece i, where the layout buffer has one.
fn set_entry(layout: &mut [PlaceEntry], i: usize, place: Placement)
    ensures { layout.new ≡ set layout.old i (entry_of place) }
{
    if i < layout.len() {
        layout[i] = layout_places::entry_of(place);
    }
}

// The lines of the pieces from position p on, into the front of a layout buffer; nothing follows the last.
fn read_placements(
    size: JobSize,
    table: &[PieceEntry],
    text: &[u8],
    p: usize,
    layout: &mut [PlaceEntry],
) -> Result<(), Refusal>
    requires { Fitting size table.now × (p ≤ length text.now) }
    ensures answer { (pixels : List ℕ) → result ≡ done_answer (placements_at (job_of (lent_by size table.now pixels)) text.now size.count 0 p 2) }
    ensures memory { (pixels : List ℕ) (v : Layout) → placements_at (job_of (lent_by size table.now pixels)) text.now size.count 0 p 2 ≡ given v → layout.new ≡ sets layout.old 0 (entries_of v) }
{
    let mut at = p;
    let mut line = 2;
    for i in 0..size.count {
        let read = placement_line(size, table, text, i, at, line)?;
        set_entry(layout, i, read.place);
        at = read.next;
        line += 1;
    }
    let more = at != text.len();
    if more {
        return Err(refused_in(line, 1));
    }
    Ok(())
}

// The pieces' lines into a layout buffer of the job's length. The first reading has no buffer, so that a refusal writes nothing.
fn fill_layout(
    size: JobSize,
    table: &[PieceEntry],
    text: &[u8],
    p: usize,
    layout: &mut [PlaceEntry],
) -> Result<(), Refusal>
    requires { Fitting size table.now × (p ≤ length text.now) }
    ensures { (pixels : List ℕ) → (result ≡ done_answer (layout_from (job_of (lent_by size table.now pixels)) text.now p (length layout.old))) × (layout.new ≡ layout_after layout.old (layout_from (job_of (lent_by size table.now pixels)) text.now p (length layout.old))) }
{
    read_placements(size, table, text, p, &mut layout[..0])?;
    if layout.len() != size.count {
        return refused(7);
    }
    read_placements(size, table, text, p, layout)
}

// Reads a layout of the job from its text, or refuses.
pub fn read_layout(
    size: JobSize,
    table: &[PieceEntry],
    pixels: &[u8],
    text: &[u8],
    layout: &mut [PlaceEntry],
) -> Result<(), Refusal>
    ensures answer { result ≡ done_answer (read_layout_call (lent_by size table.now pixels.now) text.now (length layout.old)) }
    ensures memory { layout.new ≡ layout_after layout.old (read_layout_call (lent_by size table.now pixels.now) text.now (length layout.old)) }
{
    if !job_check::check_job(size, table, pixels) {
        return refused(8);
    }
    let p = layout_line(size, text)?;
    fill_layout(size, table, text, p, layout)
}
