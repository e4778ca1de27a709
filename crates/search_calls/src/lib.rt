// The line search as a call. Document 01, 'Line search' and 'When a call says no'.
#![tactic(auto)]

ghost use Rattle.std.specs.Prelude.{◌≡◌, ◌<◌};
ghost use Rattle.model.specs.Piece.{coordinate_on};
ghost use Rattle.model.specs.Search.{search_line};
ghost use Rattle.model.specs.Lent.{lent_by, job_of};
ghost use Rattle.model.specs.Buffer.{layout_of};
ghost use Rattle.model.specs.Calls.{search_call};
ghost use Rattle.descent_laws.specs.LentLayout.{Laid};
ghost use Rattle.descent_laws.specs.Claims.{ValidWeights};
ghost use Rattle.search_line_sums.specs.Answers.{found_answer};
ghost use Rattle.search_calls.specs.Answers.{InReach, best_answer, search_answer};

use causes::placing_causes;
use model::{
    Column, Coordinate, Direction, JobSize, Line, PieceEntry, PlaceEntry, Refusal, Row, Turn,
    plain_refusal,
};
use search_bounded::search_below;
use search_line_sums::Least;
use search_lines::{LEAST_LINES, LEAST_MAPS, RunSize, ready_maps};
use search_shapes::{STARTS_LENGTH, empty_store};
use search_tracks::Mover;

// How many penalty lines a search keeps at a time: it asks for each once.
const SLOTS: usize = 1;

// No sum reaches it: a search without a bound.
const NO_BOUND: u32 = 4294967295;

// The least pair sum on a line and the smallest coordinate that has it.
#[derive(Clone, Copy)]
pub struct BestPlace {
    pub sum: u64,
    pub at: Coordinate,
}

// The line search without a bound, with strips and stores of its own.
fn search_alone(
    size: JobSize,
    table: &[PieceEntry],
    pixels: &[u8],
    layout: &[PlaceEntry],
    weights: &[u32],
    mover: Mover,
) -> Option<Least>
    requires fact_1 { Laid (lent_by size table.now pixels.now) layout.now }
    requires fact_2 { ValidWeights (job_of (lent_by size table.now pixels.now)) weights.now }
    requires fact_3 { mover.piece < size.count }
    ensures { result ≡ found_answer (search_line (job_of (lent_by size table.now pixels.now)) weights.now (layout_of layout.now) mover.piece mover.turn mover.line) }
{
    let mut strips = empty_store();
    let mut starts = [0u32; STARTS_LENGTH];
    let mut lines = [0u8; LEAST_LINES];
    let mut maps = [0u64; LEAST_MAPS];
    ready_maps(size, table, pixels, &mut maps);
    search_shapes::make_shapes(
        size,
        table,
        pixels,
        Direction::Horizontal,
        &mut strips,
        &mut starts,
    );
    let run = RunSize { size, slots: SLOTS };
    search_below(
        run, table, pixels, &strips, &starts, layout, weights, mover, NO_BOUND, &mut lines,
        &mut maps,
    )
}

// A coordinate of the line.
fn coordinate_on(line: Line, at: u16) -> Coordinate
    ensures { result ≡ coordinate_on line at }
{
    match line {
        Line::InRow(_) => Coordinate::AtColumn(Column(at)),
        Line::InColumn(_) => Coordinate::AtRow(Row(at)),
    }
}

// What a search on the line without a bound says: refusal 11 where it finds nothing, since then the line has no place.
fn best_answer(line: Line, found: Option<Least>) -> Result<BestPlace, Refusal>
    requires { InReach found }
    ensures { result ≡ best_answer line found }
{
    match found {
        Some(least) => Ok(BestPlace {
            sum: least.sum as u64,
            at: coordinate_on(line, least.at as u16),
        }),
        None => Err(plain_refusal(11)),
    }
}

// The line search: the least sum of the piece's pairs over every inside corner on the line and the smallest coordinate that has it, or
// its refusal.
pub fn line_search(
    size: JobSize,
    table: &[PieceEntry],
    pixels: &[u8],
    layout: &[PlaceEntry],
    weights: &[u32],
    piece: usize,
    turn: Turn,
    line: Line,
) -> Result<BestPlace, Refusal>
    ensures { result ≡ search_answer line (search_call (lent_by size table.now pixels.now) layout.now weights.now piece turn line) }
{
    placing_causes(size, table, pixels, layout, weights, piece, turn)?;
    let mover = Mover { piece, turn, line };
    best_answer(
        line,
        search_alone(size, table, pixels, layout, weights, mover),
    )
}
