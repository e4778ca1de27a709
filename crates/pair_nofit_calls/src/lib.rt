// No-fit rows and columns of two pieces, from their lent stretches. Document 01, 'No-fit rows and penalty', and document 02, points 4 and 5: the
// offsets of a line are kept as a bit each, nine words in all.
#![tactic(auto)]

ghost use Rattle.std.specs.Prelude.{◌≡◌, ℕ, ◌≤◌, length};
ghost use Rattle.model.specs.Answers.{count_answer, first_cause};
ghost use Rattle.model.specs.Lent.{lent_by, job_of, pixel_start, piece_bound, gap_bound};
ghost use Rattle.model.specs.Calls.{stretch_well, no_fit_call, runs_after};
ghost use Rattle.model.specs.declared.JobSize.{JobSize};
ghost use Rattle.job_laws.specs.Entries.{EntryAt};
ghost use Rattle.call_laws.specs.NoFits.{OffsetsWithin};
ghost use Rattle.pair_overlap.specs.Meet.{Ordered};
ghost use Rattle.pair_nofit_calls.specs.Lines.{line_outcome, line_after, lent_stretch, stretch_causes};

use layout_places::known;
use model::{
    ColumnOffset, Direction, JobSize, OFFSET_BOUND, PieceEntry, Refusal, RowOffset, StripEntry,
    Turn, plain_refusal, refused,
};
use pair_overlap::Corner;
use pair_runs::{OFFSET_COUNT, down, put_runs, up};

// How many words have a bit for each offset of a no-fit line.
const OFFSET_WORDS: usize = OFFSET_COUNT / 64 + 1;

// A piece in a turn.
#[derive(Clone, Copy)]
pub struct PieceInTurn {
    pub piece: usize,
    pub turn: Turn,
}

// Puts the no-fit line of two stretches by a gap, at an offset, into the buffer, if there is room for it, and tells how many runs it has.
fn put_line(
    a: &[StripEntry],
    b: &[StripEntry],
    gap: u32,
    offset: i32,
    out: &mut [[i32; 2]],
) -> Result<u64, Refusal>
    requires fact_1 { Ordered a.now }
    requires fact_2 { Ordered b.now }
    requires fact_3 { gap ≤ gap_bound }
    ensures answer { result ≡ count_answer (line_outcome gap a.now b.now offset (length out.old)) }
    ensures memory { out.new ≡ line_after out.old (line_outcome gap a.now b.now offset (length out.old)) }
{
    let u = Corner {
        along: OFFSET_BOUND,
        across: down(offset),
    };
    let v = Corner {
        along: 0,
        across: up(offset),
    };
    let mut marks = [0u64; OFFSET_WORDS];
    pair_nofit::mark_shifts(a, u, b, v, gap, &mut marks);
    let needed = put_runs(&marks, &mut out[..0]);
    let short = out.len() < needed;
    if short {
        return Err(plain_refusal(7));
    }
    Ok(put_runs(&marks, out) as u64)
}

// The stretch is that of the piece in the turn.
fn is_own(
    table: &[PieceEntry],
    pixels: &[u8],
    i: usize,
    turn: Turn,
    direction: Direction,
    stretch: &[StripEntry],
) -> bool
    requires { EntryAt table.now i (pixel_start table.now i) × (i ≤ piece_bound) }
    ensures { (size : JobSize) → result ≡ stretch_well direction (job_of (lent_by size table.now pixels.now)) (lent_stretch i turn stretch.now) }
{
    let start = job_check::pixel_start(table, i);
    let Some(end) = strip_scan::compare::compare_piece(
        table, pixels, i, start, turn, direction, stretch, 0,
    ) else {
        return false;
    };
    end == stretch.len()
}

// The causes of a no-fit call before the room is asked for: 8 the job, 9, 8 a stretch.
fn stretch_causes(
    size: JobSize,
    table: &[PieceEntry],
    pixels: &[u8],
    first: PieceInTurn,
    a: &[StripEntry],
    second: PieceInTurn,
    b: &[StripEntry],
    direction: Direction,
) -> Result<(), Refusal>
    ensures { result ≡ first_cause (stretch_causes direction (lent_by size table.now pixels.now) (lent_stretch first.piece first.turn a.now) (lent_stretch second.piece second.turn b.now)) }
{
    if !job_check::check_job(size, table, pixels) {
        return refused(8);
    }
    let i = first.piece;
    let i_turn = first.turn;
    let k = second.piece;
    let k_turn = second.turn;
    if !known(size, table, i, i_turn) {
        return refused(9);
    }
    if !known(size, table, k, k_turn) {
        return refused(9);
    }
    if !is_own(table, pixels, i, i_turn, direction, a) {
        return refused(8);
    }
    if !is_own(table, pixels, k, k_turn, direction, b) {
        return refused(8);
    }
    Ok(())
}

// The no-fit line in a direction of two pieces in their turns, at an offset across it.
fn no_fit(
    size: JobSize,
    table: &[PieceEntry],
    pixels: &[u8],
    first: PieceInTurn,
    a: &[StripEntry],
    second: PieceInTurn,
    b: &[StripEntry],
    direction: Direction,
    offset: i32,
    out: &mut [[i32; 2]],
) -> Result<u64, Refusal>
    ensures answer { result ≡ count_answer (no_fit_call direction (lent_by size table.now pixels.now) (lent_stretch first.piece first.turn a.now) (lent_stretch second.piece second.turn b.now) offset (length out.old)) }
    ensures memory { out.new ≡ runs_after out.old (no_fit_call direction (lent_by size table.now pixels.now) (lent_stretch first.piece first.turn a.now) (lent_stretch second.piece second.turn b.now) offset (length out.old)) }
{
    stretch_causes(size, table, pixels, first, a, second, b, direction)?;
    let gap = size.gap as u32;
    put_line(a, b, gap, offset, out)
}

// The no-fit row of two pieces in their turns at a row offset, from their row strips: the column offsets at which they conflict.
pub fn no_fit_row(
    size: JobSize,
    table: &[PieceEntry],
    pixels: &[u8],
    first: PieceInTurn,
    a: &[StripEntry],
    second: PieceInTurn,
    b: &[StripEntry],
    offset: RowOffset,
    out: &mut [[i32; 2]],
) -> Result<u64, Refusal>
    ensures answer { result ≡ count_answer (no_fit_call Direction.Horizontal (lent_by size table.now pixels.now) (lent_stretch first.piece first.turn a.now) (lent_stretch second.piece second.turn b.now) offset.0 (length out.old)) }
    ensures memory { out.new ≡ runs_after out.old (no_fit_call Direction.Horizontal (lent_by size table.now pixels.now) (lent_stretch first.piece first.turn a.now) (lent_stretch second.piece second.turn b.now) offset.0 (length out.old)) }
    ensures offsets { (n : ℕ) → result ≡ Ok n → OffsetsWithin size.gap n out.new }
{
    no_fit(
        size,
        table,
        pixels,
        first,
        a,
        second,
        b,
        Direction::Horizontal,
        offset.0,
        out,
    )
}

// The no-fit column of two pieces in their turns at a column offset, from their column strips: the row offsets at which they conflict.
pub fn no_fit_column(
    size: JobSize,
    table: &[PieceEntry],
    pixels: &[u8],
    first: PieceInTurn,
    a: &[StripEntry],
    second: PieceInTurn,
    b: &[StripEntry],
    offset: ColumnOffset,
    out: &mut [[i32; 2]],
) -> Result<u64, Refusal>
    ensures answer { result ≡ count_answer (no_fit_call Direction.Vertical (lent_by size table.now pixels.now) (lent_stretch first.piece first.turn a.now) (lent_stretch second.piece second.turn b.now) offset.0 (length out.old)) }
    ensures memory { out.new ≡ runs_after out.old (no_fit_call Direction.Vertical (lent_by size table.now pixels.now) (lent_stretch first.piece first.turn a.now) (lent_stretch second.piece second.turn b.now) offset.0 (length out.old)) }
    ensures offsets { (n : ℕ) → result ≡ Ok n → OffsetsWithin size.gap n out.new }
{
    no_fit(
        size,
        table,
        pixels,
        first,
        a,
        second,
        b,
        Direction::Vertical,
        offset.0,
        out,
    )
}
