// Whether two pieces of a layout conflict, their depth and their penalty, by the job's gap; with no gap to conflict is to share a pixel.
// Document 01, 'No-fit rows and penalty' and 'When a call says no', and document 02, point 4.
#![tactic(auto)]

ghost use Rattle.std.specs.Prelude.{◌≡◌, not, ◌||◌, ℕ, ◌<◌, ◌^◌, ltb, eqb};
ghost use Rattle.model.specs.Answers.{first_cause, number_answer};
ghost use Rattle.model.specs.Lent.{lent_by};
ghost use Rattle.model.specs.Calls.{pair_causes, share_call, depth_call, penalty_call};
ghost use Rattle.pair_calls.specs.Answers.{share_answer};

use causes::{Wrong, call_causes};
use layout_places::place_at;
use model::{Direction, JobSize, PieceEntry, PlaceEntry, Refusal};
use pair_measure::{placed_depth, placed_penalty};

// One more than the largest depth, that of two boxes of 255 with a gap of 8.
const DEPTH_END: u32 = 264;

// Cause 9 of a pair: no such piece, or a piece with itself.
fn wrong_pair(count: usize, i: usize, k: usize) -> bool
    ensures { result ≡ (not (ltb i count) || not (ltb k count) || eqb i k) }
{
    if count <= i {
        return true;
    }
    if count <= k {
        return true;
    }
    i == k
}

// The causes of a call on a pair of a layout: 8, 7, 9, 10.
fn pair_causes(
    size: JobSize,
    table: &[PieceEntry],
    pixels: &[u8],
    layout: &[PlaceEntry],
    i: usize,
    k: usize,
) -> Result<(), Refusal>
    ensures { result ≡ first_cause (pair_causes (lent_by size table.now pixels.now) layout.now i k) }
{
    let wrong = Wrong {
        length: false,
        number: false,
        piece: wrong_pair(size.count, i, k),
    };
    call_causes(size, table, pixels, layout, wrong)
}

// Whether pieces i and k conflict in the layout: with no gap, whether they share a pixel.
pub fn shares_pixel(
    size: JobSize,
    table: &[PieceEntry],
    pixels: &[u8],
    layout: &[PlaceEntry],
    i: usize,
    k: usize,
) -> Result<bool, Refusal>
    ensures { result ≡ share_answer (share_call (lent_by size table.now pixels.now) layout.now i k) }
{
    pair_causes(size, table, pixels, layout, i, k)?;
    let gap = size.gap as u32;
    let first = place_at(layout, i);
    let second = place_at(layout, k);
    let amount = placed_depth(
        table,
        pixels,
        i,
        first,
        k,
        second,
        Direction::Horizontal,
        gap,
        1,
    );
    Ok(amount == 1)
}

// The depth of pieces i and k along a direction in the layout.
pub fn depth(
    size: JobSize,
    table: &[PieceEntry],
    pixels: &[u8],
    layout: &[PlaceEntry],
    i: usize,
    k: usize,
    direction: Direction,
) -> Result<u64, Refusal>
    ensures answer { result ≡ number_answer (depth_call direction (lent_by size table.now pixels.now) layout.now i k) }
    ensures small { (n : ℕ) → result ≡ Ok n → n < 2 ^ 32 }
{
    pair_causes(size, table, pixels, layout, i, k)?;
    let gap = size.gap as u32;
    let first = place_at(layout, i);
    let second = place_at(layout, k);
    let amount = placed_depth(
        table, pixels, i, first, k, second, direction, gap, DEPTH_END,
    );
    Ok(amount as u64)
}

// The penalty of pieces i and k in the layout.
pub fn penalty(
    size: JobSize,
    table: &[PieceEntry],
    pixels: &[u8],
    layout: &[PlaceEntry],
    i: usize,
    k: usize,
) -> Result<u64, Refusal>
    ensures answer { result ≡ number_answer (penalty_call (lent_by size table.now pixels.now) layout.now i k) }
    ensures small { (n : ℕ) → result ≡ Ok n → n < 2 ^ 32 }
{
    pair_causes(size, table, pixels, layout, i, k)?;
    let gap = size.gap as u32;
    let first = place_at(layout, i);
    let second = place_at(layout, k);
    let amount = placed_penalty(table, pixels, i, first, k, second, gap);
    Ok(amount as u64)
}
