// The reader of a job text: document 01, 'Job text' and 'When a call says no', reading a job. A first run over empty buffers finds every
// refusal and how much room the job needs; only a second run writes.
ghost use Rattle.std.specs.Prelude.{◌≡◌, ◌+◌, ◌*◌, ◌<◌, ◌≤◌, length, set};
ghost use Rattle.model.specs.JobText.{piece_at, pieces_at, read_job};
ghost use Rattle.model.specs.Lent.{area_bound, piece_bound};
ghost use Rattle.job_check.specs.Boxes.{Side};
ghost use Rattle.job_lines.specs.Lines.{job_line_of, piece_line_of};
ghost use Rattle.job_calls.specs.Reading.{PlaceWithin, box_at, place_answer, BoxStored, PieceStored, pieces_answer, PiecesStored, roomed, Leaves};

use job_check::box_tight;
use job_lines::{JobHead, PieceHead, job_line, piece_line, refusal};
use job_rows::fill_rows;
use model::{JobSize, PieceEntry, Refusal};
use piece_table::piece_entry;

// Where reading stands: the areas of the boxes so far, the position and the line of what follows.
#[derive(Clone, Copy)]
struct Place {
    area: usize,
    next: usize,
    line: usize,
}

// Stores an entry of the table; past its end nothing is stored.
fn put_entry(table: &mut [PieceEntry], i: usize, entry: PieceEntry)
    ensures { table.new ≡ set table.old i entry }
{
    if table.len() <= i {
        return;
    }
    table[i] = entry;
}

// Stores the rows of a piece and tests its box, whose pixels stand in the text, each row 5 bytes longer than the box.
fn fill_box(
    text: &[u8],
    h: PieceHead,
    area: usize,
    line: usize,
    pixels: &mut [u8],
) -> Result<Place, Refusal>
    requires { (h.next ≤ length text.now) × Side h.columns × Side h.rows × (area + h.columns * h.rows ≤ area_bound) × (line ≤ 65536) }
    ensures { (result ≡ place_answer area line (box_at text.now line (piece_line_of h))) × PlaceWithin text.now line result × BoxStored area pixels.old pixels.new (box_at text.now line (piece_line_of h)) }
{
    let start = h.next;
    let next = fill_rows(text, start, h.columns, h.rows, line + 1, pixels, area)?;
    if !box_tight(b'#', text, start + 4, h.columns + 5, h.columns, h.rows) {
        return Err(refusal(5, line + h.rows));
    }
    Ok(Place {
        area: area + h.columns * h.rows,
        next,
        line: line + h.rows + 1,
    })
}

// Stores piece i, whose line stands where reading stands.
fn fill_piece(
    text: &[u8],
    j: JobHead,
    i: usize,
    at: Place,
    table: &mut [PieceEntry],
    pixels: &mut [u8],
) -> Result<Place, Refusal>
    requires { (at.next ≤ length text.now) × (at.area ≤ area_bound) × (at.line ≤ 65536) }
    ensures { (result ≡ place_answer at.area at.line (piece_at text.now (job_line_of j) i at.area at.next at.line)) × PlaceWithin text.now at.line result × PieceStored i at.area table.old table.new pixels.old pixels.new (piece_at text.now (job_line_of j) i at.area at.next at.line) }
{
    let h = piece_line(text, j, i, at.area, at.next, at.line)?;
    put_entry(table, i, piece_entry(h.columns, h.rows, h.turns, h.lock));
    fill_box(text, h, at.area, at.line, pixels)
}

// Stores all pieces behind the job line; nothing follows the last. How many pixel bytes they have, or why one is refused.
fn fill_pieces(
    text: &[u8],
    j: JobHead,
    table: &mut [PieceEntry],
    pixels: &mut [u8],
) -> Result<usize, Refusal>
    requires { (j.next ≤ length text.now) × (j.size.count ≤ piece_bound) }
    ensures { (result ≡ pieces_answer (pieces_at text.now (job_line_of j) j.size.count 0 0 j.next 2)) × PiecesStored table.old table.new pixels.old pixels.new (pieces_at text.now (job_line_of j) j.size.count 0 0 j.next 2) }
{
    let count = j.size.count;
    let mut at = Place {
        area: 0,
        next: j.next,
        line: 2,
    };
    for i in 0..count {
        at = fill_piece(text, j, i, at, table, pixels)?;
    }
    if at.next != text.len() {
        return Err(refusal(1, at.line));
    }
    Ok(at.area)
}

// The pieces behind the job line: a run over empty buffers, then the room, then the run that writes.
fn read_pieces(
    text: &[u8],
    j: JobHead,
    table: &mut [PieceEntry],
    pixels: &mut [u8],
) -> Result<JobSize, Refusal>
    requires { (j.next ≤ length text.now) × (j.size.count ≤ piece_bound) }
    ensures { Leaves result table.old table.new pixels.old pixels.new (roomed text.now (job_line_of j) (length table.old) (length pixels.old)) }
{
    let no_entries = 0;
    let no_bytes = 0;
    let area = fill_pieces(text, j, &mut table[..no_entries], &mut pixels[..no_bytes])?;
    let size = j.size;
    if table.len() < size.count {
        return Err(refusal(7, 0));
    }
    let short = pixels.len() < area;
    if short {
        return Err(refusal(7, 0));
    }
    // the text is the same, and so is the answer
    fill_pieces(text, j, table, pixels)?;
    Ok(size)
}

// Reads a job from its text into a table and a pixel store: the job's numbers, or why the text is refused. A refusal writes nothing.
pub fn read_job(
    text: &[u8],
    table: &mut [PieceEntry],
    pixels: &mut [u8],
) -> Result<JobSize, Refusal>
    ensures { Leaves result table.old table.new pixels.old pixels.new (read_job text.now (length table.old) (length pixels.old)) }
{
    let j = job_line(text)?;
    read_pieces(text, j, table, pixels)
}
