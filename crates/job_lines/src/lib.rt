// The job line and the piece lines: document 01, 'Job text' and 'When a call says no', reading a job; document 02, points 4 and 6, versions 2
// (a gap) and 3 (a lock on each piece line). A line's form comes before its ranges.
#![tactic(auto)]

ghost use Rattle.std.specs.Prelude.{◌≡◌, ◌+◌, ◌*◌, ◌<◌, ◌≤◌, ◌^◌, length};
ghost use Rattle.model.specs.Refusal.{unless};
ghost use Rattle.model.specs.JobText.{version_line, job_line, job_line_causes, piece_ends, piece_line, piece_line_causes};
ghost use Rattle.model.specs.Lent.{area_bound, piece_bound};
ghost use Rattle.text_numbers.specs.Lines.{field_ends};
ghost use Rattle.job_lines.specs.Lines.{refusal_at, job_line_of, job_answer, said_by, job_form, head_next, head_count, piece_line_of, piece_answer, piece_form, piece_next, Ranged};

use job_limits::{lock_in_range, numbers_in_range, sides_in_range};
use model::{AREA_BOUND, JobSize, Refusal};
use text_numbers::line_at;

// What the job line says: W rows, L columns, n pieces, the gap g; whether its piece lines have a lock; and the position after it.
#[derive(Clone, Copy)]
pub struct JobHead {
    pub size: JobSize,
    pub locks: bool,
    pub next: usize,
}

// What a piece line says: its number, l columns, w rows, the sum of turns, the lock; and the position after it.
#[derive(Clone, Copy)]
pub struct PieceHead {
    pub number: usize,
    pub columns: usize,
    pub rows: usize,
    pub turns: usize,
    pub lock: usize,
    pub next: usize,
}

// The refusal that names a line.
pub fn refusal(number: u8, line: usize) -> Refusal
    requires { line < 2 ^ 32 }
    ensures { result ≡ refusal_at number line }
{
    Refusal {
        number,
        first: line as u32,
        second: 0,
    }
}

// The form of a job line that begins with the version's word and has so many numbers: W, L, n and g, which is 0 where it is not there; the
// version says whether piece lines have a lock.
fn version_fields(text: &[u8], word: &[u8], count: usize, locks: bool) -> Result<JobHead, Refusal>
    requires { (0 < count) × (count ≤ 8) }
    ensures { (result ≡ job_answer (said_by (version_line word.now (field_ends count) locks text.now))) × (head_next result ≤ length text.now) }
{
    let Some(line) = line_at(text, 0, word, count) else {
        return Err(refusal(1, 1));
    };
    let numbers = line.numbers;
    let size = JobSize {
        rows: numbers[0],
        columns: numbers[1],
        count: numbers[2],
        gap: numbers[3],
    };
    Ok(JobHead {
        size,
        locks,
        next: line.next,
    })
}

// The form of the job line, `job,1,W,L,n`, or else `job,2,W,L,n,g`, or else `job,3,W,L,n,g`.
fn job_fields(text: &[u8]) -> Result<JobHead, Refusal>
    ensures { (result ≡ job_answer (job_form text.now)) × (head_next result ≤ length text.now) }
{
    if let Ok(j) = version_fields(text, b"job,1,", 3, false) {
        return Ok(j);
    }
    if let Ok(j) = version_fields(text, b"job,2,", 4, false) {
        return Ok(j);
    }
    version_fields(text, b"job,3,", 4, true)
}

// The ranges of the job line: a number out of range, then the sheet too large.
fn job_ranges(j: JobHead) -> Result<JobHead, Refusal>
    ensures { (result ≡ job_answer (unless (job_line_causes (job_line_of j)) (job_line_of j))) × (head_count result ≤ piece_bound) }
{
    let size = j.size;
    let wrong = !numbers_in_range(size);
    if wrong {
        return Err(refusal(2, 1));
    }
    if AREA_BOUND < size.rows * size.columns {
        return Err(refusal(3, 1));
    }
    Ok(j)
}

// The job line.
pub fn job_line(text: &[u8]) -> Result<JobHead, Refusal>
    ensures { (result ≡ job_answer (job_line text.now)) × (head_next result ≤ length text.now) × (head_count result ≤ piece_bound) }
{
    let j = job_fields(text)?;
    job_ranges(j)
}

// How many numbers a piece line has, with a lock or without.
fn piece_count(locks: bool) -> usize
    ensures { (field_ends result ≡ piece_ends locks) × (0 < result) × (result ≤ 8) }
{
    if locks {
        return 5;
    }
    4
}

// The form of a piece line, `piece,i,l,w,o`, with locks `piece,i,l,w,o,k`; the lock is 0 where it is not there.
fn piece_fields(text: &[u8], locks: bool, p: usize, line: usize) -> Result<PieceHead, Refusal>
    requires { (p ≤ length text.now) × (line < 2 ^ 32) }
    ensures { (result ≡ piece_answer (piece_form text.now locks p line)) × (piece_next result ≤ length text.now) }
{
    let count = piece_count(locks);
    let Some(read) = line_at(text, p, b"piece,", count) else {
        return Err(refusal(1, line));
    };
    let numbers = read.numbers;
    Ok(PieceHead {
        number: numbers[0],
        columns: numbers[1],
        rows: numbers[2],
        turns: numbers[3],
        lock: numbers[4],
        next: read.next,
    })
}

// The ranges of the line of piece i, with the areas of the boxes before it: a number out of range, the box longer or wider than the
// sheet, box areas so far too large.
fn piece_ranges(
    j: JobHead,
    i: usize,
    area: usize,
    h: PieceHead,
    line: usize,
) -> Result<PieceHead, Refusal>
    requires { (area ≤ area_bound) × (line < 2 ^ 32) }
    ensures { (result ≡ piece_answer (unless (piece_line_causes line (job_line_of j) i area (piece_line_of h)) (piece_line_of h))) × Ranged area result }
{
    if h.number != i {
        return Err(refusal(2, line));
    }
    if !sides_in_range(h.columns, h.rows, h.turns) {
        return Err(refusal(2, line));
    }
    if !lock_in_range(h.lock) {
        return Err(refusal(2, line));
    }
    if j.size.columns < h.columns {
        return Err(refusal(6, line));
    }
    if j.size.rows < h.rows {
        return Err(refusal(6, line));
    }
    let above = AREA_BOUND < area + h.columns * h.rows;
    if above {
        return Err(refusal(4, line));
    }
    Ok(h)
}

// The line of piece i at position p.
pub fn piece_line(
    text: &[u8],
    j: JobHead,
    i: usize,
    area: usize,
    p: usize,
    line: usize,
) -> Result<PieceHead, Refusal>
    requires { (area ≤ area_bound) × (p ≤ length text.now) × (line < 2 ^ 32) }
    ensures { (result ≡ piece_answer (piece_line text.now (job_line_of j) i area p line)) × (piece_next result ≤ length text.now) × Ranged area result }
{
    let h = piece_fields(text, j.locks, p, line)?;
    piece_ranges(j, i, area, h, line)
}
