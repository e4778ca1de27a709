// The causes of refusal that calls on a layout share, in document 01's order ('When a call says no'): 8 the job, 7 a length, 2 a number,
// 9 a piece or a turn, 10 a placement. A call asks its own tests first, by functions that need no checked job, and hands their answers
// over; which cause wins is decided here.
#![tactic(auto)]

pub mod locked;

ghost use Rattle.std.specs.Prelude.{◌≡◌, not, ◌||◌, List, ℕ, ◌≤◌, eqb, length};
ghost use Rattle.model.specs.Answers.{first_cause};
ghost use Rattle.model.specs.Layout.{pairs};
ghost use Rattle.model.specs.Lent.{lent_by, job_of, piece_bound};
ghost use Rattle.model.specs.Buffer.{layout_of};
ghost use Rattle.model.specs.Calls.{some_turn_wrong, some_outside, some_weight_wrong, layout_causes, placing_causes};
ghost use Rattle.causes.specs.Asked.{place_causes, call_causes, weighted_causes};

use layout_places::numbers::pair_count;
use layout_places::{allowed_degrees, inside, known, place_at};
use model::{JobSize, PIECE_BOUND, PieceEntry, PlaceEntry, Refusal, Turn, WEIGHT_BOUND, refused};

// What a call's own tests found wrong, beside the job and the layout: a buffer's length (7), a number's range (2), a piece or its turn (9).
#[derive(Clone, Copy)]
pub struct Wrong {
    pub length: bool,
    pub number: bool,
    pub piece: bool,
}

// Cause 9 of a layout: some piece's turn is not allowed to it.
pub fn some_turn_wrong(size: JobSize, table: &[PieceEntry], layout: &[PlaceEntry]) -> bool
    requires { (size.count ≤ length table.now) × (length layout.now ≡ size.count) }
    ensures { (pixels : List ℕ) → result ≡ some_turn_wrong (job_of (lent_by size table.now pixels)) layout.now }
{
    (0..size.count).any(|i| !allowed_degrees(table, i, layout[i][0]))
}

// Cause 10 of a layout: some piece's placement is outside.
pub fn some_outside(size: JobSize, table: &[PieceEntry], layout: &[PlaceEntry]) -> bool
    requires { (size.count ≤ length table.now) × (length layout.now ≡ size.count) }
    ensures { (pixels : List ℕ) → result ≡ some_outside (job_of (lent_by size table.now pixels)) (layout_of layout.now) }
{
    (0..size.count).any(|i| !inside(size, table, i, place_at(layout, i)))
}

// The causes of the layout's placements: 9, also where the call names a wrong piece, and 10.
fn place_causes(
    size: JobSize,
    table: &[PieceEntry],
    layout: &[PlaceEntry],
    piece: bool,
) -> Result<(), Refusal>
    requires { (size.count ≤ length table.now) × (length layout.now ≡ size.count) }
    ensures { (pixels : List ℕ) → result ≡ first_cause (place_causes (lent_by size table.now pixels) layout.now piece) }
{
    let wrong_turn = some_turn_wrong(size, table, layout);
    if wrong_turn {
        return refused(9);
    }
    if piece {
        return refused(9);
    }
    let outside = some_outside(size, table, layout);
    if outside {
        return refused(10);
    }
    Ok(())
}

// The causes of a call on a layout, with what its own tests found wrong: 8, 7, 2, 9, 10.
pub fn call_causes(
    size: JobSize,
    table: &[PieceEntry],
    pixels: &[u8],
    layout: &[PlaceEntry],
    wrong: Wrong,
) -> Result<(), Refusal>
    ensures { result ≡ first_cause (call_causes (lent_by size table.now pixels.now) layout.now wrong) }
{
    if !job_check::check_job(size, table, pixels) {
        return refused(8);
    }
    if layout.len() != size.count {
        return refused(7);
    }
    if wrong.length {
        return refused(7);
    }
    if wrong.number {
        return refused(2);
    }
    place_causes(size, table, layout, wrong.piece)
}

// The causes of a call on a layout alone: 8, 7, 9, 10.
pub fn layout_causes(
    size: JobSize,
    table: &[PieceEntry],
    pixels: &[u8],
    layout: &[PlaceEntry],
) -> Result<(), Refusal>
    ensures { result ≡ first_cause (layout_causes (lent_by size table.now pixels.now) layout.now) }
{
    let wrong = Wrong {
        length: false,
        number: false,
        piece: false,
    };
    call_causes(size, table, pixels, layout, wrong)
}

// Cause 7 of weights: there is not one for each pair of n pieces. Above 64 pieces, where a job is refused for its numbers, this says nothing.
fn weights_missing(weights: &[u32], n: usize) -> bool
    ensures { n ≤ piece_bound → result ≡ not (eqb (length weights.now) (length (pairs n))) }
{
    if PIECE_BOUND < n {
        return false;
    }
    weights.len() != pair_count(n)
}

// Cause 2 of weights: one is none of 1 to 65,535.
fn some_weight_wrong(weights: &[u32]) -> bool
    ensures { result ≡ some_weight_wrong weights.now }
{
    weights
        .iter()
        .any(|weight| *weight == 0 || WEIGHT_BOUND < *weight)
}

// Cause 2 of a call on weights: a weight is out of range, or another number of the call is.
fn some_number_wrong(weights: &[u32], number: bool) -> bool
    ensures { result ≡ (some_weight_wrong weights.now || number) }
{
    if some_weight_wrong(weights) {
        return true;
    }
    number
}

// The causes of a call on a layout and weights, where another number of it (`number`) or a piece that it names (`piece`) may be wrong:
// 8, 7 the layout and the weights, 2, 9, 10.
pub fn weighted_causes(
    size: JobSize,
    table: &[PieceEntry],
    pixels: &[u8],
    layout: &[PlaceEntry],
    weights: &[u32],
    number: bool,
    piece: bool,
) -> Result<(), Refusal>
    ensures { result ≡ first_cause (weighted_causes (lent_by size table.now pixels.now) layout.now weights.now number piece) }
{
    let wrong = Wrong {
        length: weights_missing(weights, size.count),
        number: some_number_wrong(weights, number),
        piece: piece,
    };
    call_causes(size, table, pixels, layout, wrong)
}

// The causes of a call that would place a piece in a turn: 8, 7 the layout and the weights, 2, 9, also where there is no such piece or the
// turn is not allowed to it, and 10 of the layout.
pub fn placing_causes(
    size: JobSize,
    table: &[PieceEntry],
    pixels: &[u8],
    layout: &[PlaceEntry],
    weights: &[u32],
    piece: usize,
    turn: Turn,
) -> Result<(), Refusal>
    ensures { result ≡ first_cause (placing_causes (lent_by size table.now pixels.now) layout.now weights.now piece turn) }
{
    let wrong = !known(size, table, piece, turn);
    weighted_causes(size, table, pixels, layout, weights, false, wrong)
}
