// Sums over the pairs of a layout, and its check. Document 01, 'No-fit rows and penalty' (weights and sums) and 'When a call says
// no'. The calls here refuse by number and measure a whole layout.
#![tactic(auto)]

mod conflicting;

ghost use Rattle.std.specs.Prelude.{◌≡◌};
ghost use Rattle.model.specs.Answers.{done_answer, number_answer};
ghost use Rattle.model.specs.Lent.{lent_by};
ghost use Rattle.model.specs.Calls.{weighted_sum_call, plain_sum_call, check_call};
ghost use Rattle.layout_sum_calls.specs.Answers.{conflict_answer};

use causes::{layout_causes, weighted_causes};
use conflicting::conflicting_pair;
use model::{JobSize, PieceEntry, PlaceEntry, Refusal};
use search_sums::{plain_total, total};
use search_table::penalties_of;

// The weighted sum of a layout, or its refusal.
pub fn weighted_sum(
    size: JobSize,
    table: &[PieceEntry],
    pixels: &[u8],
    layout: &[PlaceEntry],
    weights: &[u32],
) -> Result<u64, Refusal>
    ensures { result ≡ number_answer (weighted_sum_call (lent_by size table.now pixels.now) layout.now weights.now) }
{
    weighted_causes(size, table, pixels, layout, weights, false, false)?;
    let penalties = penalties_of(size, table, pixels, layout);
    Ok(total(&penalties, weights, size.count))
}

// The plain sum of a layout, or its refusal.
pub fn plain_sum(
    size: JobSize,
    table: &[PieceEntry],
    pixels: &[u8],
    layout: &[PlaceEntry],
) -> Result<u64, Refusal>
    ensures { result ≡ number_answer (plain_sum_call (lent_by size table.now pixels.now) layout.now) }
{
    layout_causes(size, table, pixels, layout)?;
    let penalties = penalties_of(size, table, pixels, layout);
    Ok(plain_total(&penalties, size.count))
}

// What the check says of the first pair that conflicts: refusal 12 with the pair.
fn conflict_answer(pair: Option<(u32, u32)>) -> Result<(), Refusal>
    ensures { result ≡ conflict_answer pair }
{
    match pair {
        Some((first, second)) => Err(Refusal {
            number: 12,
            first,
            second,
        }),
        None => Ok(()),
    }
}

// The check of a layout.
pub fn check(
    size: JobSize,
    table: &[PieceEntry],
    pixels: &[u8],
    layout: &[PlaceEntry],
) -> Result<(), Refusal>
    ensures { result ≡ done_answer (check_call (lent_by size table.now pixels.now) layout.now) }
{
    layout_causes(size, table, pixels, layout)?;
    conflict_answer(conflicting_pair(size, table, pixels, layout))
}
