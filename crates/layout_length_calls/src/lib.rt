// The used length of a layout. Document 02, point 1, and document 01, 'When a call says no'.
#![tactic(auto)]

ghost use Rattle.std.specs.Prelude.{◌≡◌, List, ℕ, ◌<◌, ◌≤◌, length};
ghost use Rattle.model.specs.Answers.{number_answer};
ghost use Rattle.model.specs.Layout.{corner_in, right_end, used_length};
ghost use Rattle.model.specs.Lent.{lent_by, job_of};
ghost use Rattle.model.specs.Buffer.{layout_of};
ghost use Rattle.model.specs.Calls.{used_length_call};
ghost use Rattle.model.specs.declared.JobSize.{JobSize};
ghost use Rattle.call_laws.specs.Lengths.{UsedClaims};

use causes::layout_causes;
use layout_places::place_at;
use model::{JobSize, PieceEntry, PlaceEntry, Refusal};
use piece_pixels::turned_sides;

// The left end of piece i: its corner x.
fn left_end(layout: &[PlaceEntry], i: usize) -> usize
    requires { i < length layout.now }
    ensures { result ≡ (corner_in (layout_of layout.now) i).x }
{
    place_at(layout, i).x.0 as usize
}

// The right end of piece i: corner x plus the turned box's columns.
fn right_end(table: &[PieceEntry], layout: &[PlaceEntry], i: usize) -> usize
    requires { (i < length table.now) × (i < length layout.now) }
    ensures { (size : JobSize) (pixels : List ℕ) → result ≡ right_end (job_of (lent_by size table.now pixels)) (layout_of layout.now) i }
{
    let place = place_at(layout, i);
    let turn = place.turn;
    let sides = turned_sides(table, i, turn);
    place.x.0 as usize + sides.columns
}

// The used length of a layout: the largest right end less the smallest corner x.
pub fn length_between_ends(size: JobSize, table: &[PieceEntry], layout: &[PlaceEntry]) -> usize
    requires { (0 < size.count) × (size.count ≤ length table.now) × (length layout.now ≡ size.count) }
    ensures { (pixels : List ℕ) → result ≡ used_length (job_of (lent_by size table.now pixels)) (layout_of layout.now) }
{
    let mut last: usize = 0;
    let mut first = left_end(layout, 0);
    for i in 0..size.count {
        let right = right_end(table, layout, i);
        let left = left_end(layout, i);
        last = last.max(right);
        first = first.min(left);
    }
    last - first
}

// The used length of a layout, or its refusal.
pub fn used_length(
    size: JobSize,
    table: &[PieceEntry],
    pixels: &[u8],
    layout: &[PlaceEntry],
) -> Result<u64, Refusal>
    ensures answer { result ≡ number_answer (used_length_call (lent_by size table.now pixels.now) layout.now) }
    ensures length { (n : ℕ) → result ≡ Ok n → UsedClaims (job_of (lent_by size table.now pixels.now)) (layout_of layout.now) n }
{
    layout_causes(size, table, pixels, layout)?;
    Ok(length_between_ends(size, table, layout) as u64)
}
