// One trial of a descent: the piece's line is searched for a place whose pair sum is below the present one, and the piece goes there if
// there is one. Document 01, 'Descent and guidance'.
#![tactic(auto)]

ghost use Rattle.std.specs.Prelude.{◌≡◌, ◌+◌, ◌^◌, ◌<◌, ◌≤◌, length, get_or};
ghost use Rattle.model.specs.Piece.{on_line};
ghost use Rattle.model.specs.Lent.{lent_by, job_of};
ghost use Rattle.model.specs.Layout.{piece_sum, weighted_sum};
ghost use Rattle.model.specs.Buffer.{layout_of};
ghost use Rattle.model.specs.Descent.{attempt, trial_line, no_trial, step};
ghost use Rattle.model.specs.Calls.{budget_bound};
ghost use Rattle.descent_laws.specs.Claims.{ValidWeights};
ghost use Rattle.descent_laws.specs.Trials.{Proper};
ghost use Rattle.descent_laws.specs.LentLayout.{Laid};
ghost use Rattle.search_laws.specs.Table.{PenaltyTable};
ghost use Rattle.search_laws.specs.Loop.{trial_search};
ghost use Rattle.search_beside.specs.Ready.{LinesReady};
ghost use Rattle.run_trials.specs.Trials.{trial_as, trials_of};
ghost use Rattle.run_step.specs.Ready.{LaidOut};
ghost use Rattle.run_step.specs.Steps.{mover_search, tried_answer, entries_after, standing_as, after_quiet, after_move};

use model::{Column, Line, PieceEntry, PlaceEntry, Placement, Row, StripEntry, Turn};
use run_trials::{Trial, line_of, next_place, trial_at};
use search_beside::renew_placed;
use search_bounded::search_below;
use search_line_sums::Least;
use search_lines::RunSize;
use search_sums::row_sum;
use search_tracks::Mover;

// Where a descent stands: the weighted sum, the quiet count, trials made, moves, and the place of the trial that comes next.
#[derive(Clone, Copy)]
pub struct DescentState {
    pub sum: u64,
    pub quiet: usize,
    pub made: u32,
    pub moves: u32,
    pub next: usize,
}

// The placement in a turn at a coordinate of a line.
fn place_on(line: Line, turn: Turn, at: u32) -> Placement
    requires { at < 65536 }
    ensures { result ≡ on_line line turn at }
{
    let here = at as u16;
    match line {
        Line::InRow(row) => Placement {
            turn: turn,
            x: Column(here),
            y: row,
        },
        Line::InColumn(column) => Placement {
            turn: turn,
            x: column,
            y: Row(here),
        },
    }
}

// Searches the mover's line for a place below the bound, and moves the piece there if there is one. Gives the piece's pair sum at its new
// place, or nothing where it stays.
fn try_line(
    run: RunSize,
    table: &[PieceEntry],
    pixels: &[u8],
    strips: &[StripEntry],
    starts: &[u32],
    weights: &[u32],
    mover: Mover,
    bound: u32,
    layout: &mut [PlaceEntry],
    penalties: &mut [u8],
    lines: &mut [u8],
    maps: &mut [u64],
) -> Option<u32>
    requires fact_1 { LinesReady (lent_by run.size table.now pixels.now) run strips.now starts.now lines.old maps.old }
    requires fact_2 { ValidWeights (job_of (lent_by run.size table.now pixels.now)) weights.now }
    requires fact_3 { Laid (lent_by run.size table.now pixels.now) layout.old }
    requires fact_4 { mover.piece < run.size.count }
    requires fact_5 { PenaltyTable (job_of (lent_by run.size table.now pixels.now)) (layout_of layout.old) run.size.count penalties.old }
    ensures answer { result ≡ tried_answer (mover_search (job_of (lent_by run.size table.now pixels.now)) weights.now (layout_of layout.old) mover bound) }
    ensures memory { layout.new ≡ entries_after layout.old mover.piece mover.turn mover.line (mover_search (job_of (lent_by run.size table.now pixels.now)) weights.now (layout_of layout.old) mover bound) }
    ensures renewed { PenaltyTable (job_of (lent_by run.size table.now pixels.now)) (layout_of layout.new) run.size.count penalties.new }
    ensures ready { LinesReady (lent_by run.size table.now pixels.now) run strips.now starts.now lines.new maps.new }
{
    let least: Least = search_below(
        run, table, pixels, strips, starts, layout, weights, mover, bound, lines, maps,
    )?;
    renew_placed(
        run,
        table,
        pixels,
        strips,
        starts,
        layout,
        mover,
        least.at as usize,
        lines,
        maps,
        penalties,
    );
    let piece = mover.piece;
    let turn = mover.turn;
    let line = mover.line;
    layout[piece] = layout_places::entry_of(place_on(line, turn, least.at));
    Some(least.sum)
}

// Takes a trial of a piece whose present pair sum is given. Gives its pair sum at its new place, or nothing where the trial is quiet.
fn try_trial(
    run: RunSize,
    table: &[PieceEntry],
    pixels: &[u8],
    strips: &[StripEntry],
    starts: &[u32],
    weights: &[u32],
    trial: Trial,
    present: u32,
    layout: &mut [PlaceEntry],
    penalties: &mut [u8],
    lines: &mut [u8],
    maps: &mut [u64],
) -> Option<u32>
    requires fact_1 { LinesReady (lent_by run.size table.now pixels.now) run strips.now starts.now lines.old maps.old }
    requires fact_2 { ValidWeights (job_of (lent_by run.size table.now pixels.now)) weights.now }
    requires fact_3 { LaidOut (lent_by run.size table.now pixels.now) layout.old penalties.old }
    requires fact_4 { Proper (job_of (lent_by run.size table.now pixels.now)) 0 run.size.count (trial_as trial) }
    requires fact_5 { present ≡ piece_sum (job_of (lent_by run.size table.now pixels.now)) weights.now (layout_of layout.old) trial.piece }
    ensures answer { result ≡ tried_answer (trial_search (job_of (lent_by run.size table.now pixels.now)) weights.now (layout_of layout.old) (trial_as trial)) }
    ensures memory { layout.new ≡ entries_after layout.old trial.piece trial.turn (trial_line (layout_of layout.old) (trial_as trial)) (trial_search (job_of (lent_by run.size table.now pixels.now)) weights.now (layout_of layout.old) (trial_as trial)) }
    ensures laid { LaidOut (lent_by run.size table.now pixels.now) layout.new penalties.new }
    ensures ready { LinesReady (lent_by run.size table.now pixels.now) run strips.now starts.now lines.new maps.new }
{
    let turn = trial.turn;
    let line = line_of(layout, trial);
    let mover = Mover {
        piece: trial.piece,
        turn: turn,
        line: line,
    };
    try_line(
        run, table, pixels, strips, starts, weights, mover, present, layout, penalties, lines, maps,
    )
}

// After a quiet trial: the quiet count grows by 1.
fn after_quiet(at: DescentState, next: usize) -> DescentState
    requires { (at.quiet + 1 < 2 ^ 64) × (at.made < budget_bound) }
    ensures { result ≡ after_quiet at next }
{
    DescentState {
        sum: at.sum,
        quiet: at.quiet + 1,
        made: at.made + 1,
        moves: at.moves,
        next: next,
    }
}

// After a move to a given sum: the quiet count becomes 0.
fn after_move(at: DescentState, next: usize, sum: u64) -> DescentState
    requires { (at.made < budget_bound) × (at.moves ≤ at.made) }
    ensures { result ≡ after_move at next sum }
{
    DescentState {
        sum: sum,
        quiet: 0,
        made: at.made + 1,
        moves: at.moves + 1,
        next: next,
    }
}

// Takes the trial that comes next. A piece whose pair sum is 0 cannot move, so its line is not searched.
pub fn step(
    run: RunSize,
    table: &[PieceEntry],
    pixels: &[u8],
    strips: &[StripEntry],
    starts: &[u32],
    trials: &[u16],
    weights: &[u32],
    at: DescentState,
    layout: &mut [PlaceEntry],
    penalties: &mut [u8],
    lines: &mut [u8],
    maps: &mut [u64],
) -> DescentState
    requires lines_ready_1 { LinesReady (lent_by run.size table.now pixels.now) run strips.now starts.now lines.old maps.old }
    requires lines_ready_2 { ValidWeights (job_of (lent_by run.size table.now pixels.now)) weights.now }
    requires lines_ready_3 { LaidOut (lent_by run.size table.now pixels.now) layout.old penalties.old }
    requires proper_1 { Proper (job_of (lent_by run.size table.now pixels.now)) 0 run.size.count (get_or (trials_of trials.now) at.next no_trial) }
    requires proper_2 { at.sum ≡ weighted_sum (job_of (lent_by run.size table.now pixels.now)) weights.now (layout_of layout.old) }
    requires proper_3 { (at.quiet < length trials.now) × ((at.made < budget_bound) × ((at.moves ≤ at.made) × (at.next < length trials.now))) }
    ensures passed { standing_as (layout_of layout.new) result ≡ step (weighted_sum (job_of (lent_by run.size table.now pixels.now)) weights.now) (attempt (job_of (lent_by run.size table.now pixels.now)) weights.now) (trials_of trials.now) (standing_as (layout_of layout.old) at) }
    ensures sum { result.sum ≡ weighted_sum (job_of (lent_by run.size table.now pixels.now)) weights.now (layout_of layout.new) }
    ensures laid { LaidOut (lent_by run.size table.now pixels.now) layout.new penalties.new }
    ensures ready { LinesReady (lent_by run.size table.now pixels.now) run strips.now starts.now lines.new maps.new }
{
    let sum = at.sum;
    let place = at.next;
    let trial = trial_at(trials, place);
    let next = next_place(trials.len(), place);
    let present = row_sum(penalties, weights, run.size.count, trial.piece);
    let still = present == 0;
    if still {
        return after_quiet(at, next);
    }
    let Some(found) = try_trial(
        run,
        table,
        pixels,
        strips,
        starts,
        weights,
        trial,
        present as u32,
        layout,
        penalties,
        lines,
        maps,
    ) else {
        return after_quiet(at, next);
    };
    after_move(at, next, sum - present + found as u64)
}
