// Trials in document 01's order, 'Descent and guidance': by free piece, allowed turn, horizontal before vertical. The list of them is made once a
// run, a number for each, and a descent is lent it: what makes the list decides which trials there are, and nothing else does.
#![tactic(auto)]

ghost use Rattle.std.specs.Prelude.{◌≡◌, List, ◌++◌, ℕ, ◌+◌, ◌<◌, ◌≤◌, length, get_or, take};
ghost use Rattle.model.specs.Lent.{lent_by, job_of, piece_bound};
ghost use Rattle.model.specs.Buffer.{layout_of};
ghost use Rattle.model.specs.Descent.{turn_trials, piece_trials, trial_line, trial_after, no_trial};
ghost use Rattle.model.specs.declared.JobSize.{JobSize};
ghost use Rattle.descent_laws.specs.Trials.{trial_of};
ghost use Rattle.run_trials.specs.Trials.{trial_as, turn_at, direction_at, trial_of_code, trials_of, TrialList, trial_bound};

use layout_places::allowed;
use model::{Direction, JobSize, Line, PieceEntry, PlaceEntry, Turn};
use piece_table::is_locked;

// The most trials of a job: 64 pieces, 4 turns, 2 directions.
pub const TRIAL_BOUND: usize = 512;

// A piece, a turn allowed to it and a direction.
#[derive(Clone, Copy)]
pub struct Trial {
    pub piece: usize,
    pub turn: Turn,
    pub direction: Direction,
}

// The turn at a place in the order of turns.
fn turn_at(place: usize) -> Turn
    ensures { result ≡ turn_at place }
{
    match place {
        0 => Turn::Zero,
        1 => Turn::Quarter,
        2 => Turn::Half,
        _ => Turn::ThreeQuarters,
    }
}

// The direction at a place in their order.
fn direction_at(place: usize) -> Direction
    ensures { result ≡ direction_at place }
{
    if place == 0 {
        return Direction::Horizontal;
    }
    Direction::Vertical
}

// The number of a trial, from the piece and the places of turn and direction.
fn code_of(piece: usize, turn: usize, direction: usize) -> u16
    requires { (piece < piece_bound) × ((turn < 4) × (direction < 2)) }
    ensures { trial_of_code result ≡ trial_of piece (turn_at turn) (direction_at direction) }
{
    ((piece * 4 + turn) * 2 + direction) as u16
}

// The trial at a place of a list.
pub fn trial_at(trials: &[u16], at: usize) -> Trial
    requires { at < length trials.now }
    ensures { trial_as result ≡ get_or (trials_of trials.now) at no_trial }
{
    let code = usize::from(trials[at]);
    Trial {
        piece: code / 8,
        turn: turn_at(code / 2 % 4),
        direction: direction_at(code % 2),
    }
}

// The place after a place of a list of so many trials; after the last comes the first.
pub fn next_place(count: usize, at: usize) -> usize
    requires { at < count }
    ensures { result ≡ trial_after count at }
{
    if at + 1 < count {
        return at + 1;
    }
    0
}

// Writes the trials of a piece in the turn at a place, if it is allowed, behind the first `at` of the list; gives how many the list has then.
fn add_turn(table: &[PieceEntry], i: usize, turn: usize, store: &mut [u16], at: usize) -> usize
    requires fact_1 { (i < length table.now) × ((i < piece_bound) × (turn < 4)) }
    requires fact_2 { at + 2 ≤ length store.old }
    ensures listed { (size : JobSize) (pixels : List ℕ) → trials_of (take result store.new) ≡ trials_of (take at store.old) ++ turn_trials (job_of (lent_by size table.now pixels)) i (turn_at turn) }
    ensures few { result ≤ at + 2 }
{
    if allowed(table, i, turn_at(turn)) {
        store[at] = code_of(i, turn, 0);
        store[at + 1] = code_of(i, turn, 1);
        return at + 2;
    }
    at
}

// Writes the trials of a piece, by turn, behind the first `at` of the list; gives how many the list has then. A locked piece has none.
fn add_piece(table: &[PieceEntry], i: usize, store: &mut [u16], at: usize) -> usize
    requires fact_1 { (i < length table.now) × (i < piece_bound) }
    requires fact_2 { at + 8 ≤ length store.old }
    ensures listed { (size : JobSize) (pixels : List ℕ) → trials_of (take result store.new) ≡ trials_of (take at store.old) ++ piece_trials (job_of (lent_by size table.now pixels)) i }
    ensures few { result ≤ at + 8 }
{
    if is_locked(table, i) {
        return at;
    }
    let zero = add_turn(table, i, 0, store, at);
    let quarter = add_turn(table, i, 1, store, zero);
    let half = add_turn(table, i, 2, store, quarter);
    add_turn(table, i, 3, store, half)
}

// Writes the job's trials to the front of the store; gives T, the number of them.
pub fn make_trials(size: JobSize, table: &[PieceEntry], store: &mut [u16]) -> usize
    requires fact_1 { (size.count ≤ length table.now) × (size.count ≤ piece_bound) }
    requires fact_2 { trial_bound ≤ length store.old }
    ensures listed { (pixels : List ℕ) → TrialList (job_of (lent_by size table.now pixels)) (take result store.new) }
    ensures few { result ≤ trial_bound }
{
    let mut count = 0;
    for i in 0..size.count {
        count = add_piece(table, i, store, count);
    }
    count
}

// The line that a trial searches: through the present corner of its piece.
pub fn line_of(layout: &[PlaceEntry], trial: Trial) -> Line
    requires { trial.piece < length layout.now }
    ensures { result ≡ trial_line (layout_of layout.now) (trial_as trial) }
{
    let place = layout_places::place_at(layout, trial.piece);
    let x = place.x;
    let y = place.y;
    let direction = trial.direction;
    match direction {
        Direction::Horizontal => Line::InRow(y),
        Direction::Vertical => Line::InColumn(x),
    }
}
