// Whether the boxes of two pieces of a layout are at most the gap apart. Pieces whose boxes are not do not conflict.
ghost use Rattle.std.specs.Prelude.{◌≡◌, false, List, ℕ, ◌<◌, ◌≤◌, length};
ghost use Rattle.model.specs.Piece.{gap_bound};
ghost use Rattle.model.specs.Layout.{pair_of, pair_conflicts};
ghost use Rattle.model.specs.Lent.{lent_by, job_of};
ghost use Rattle.model.specs.Buffer.{layout_of};
ghost use Rattle.model.specs.declared.JobSize.{JobSize};

use layout_places::place_at;
use model::{PieceEntry, PlaceEntry};
use pair_slide::spans_meet;

// Whether the boxes of pieces i and k are at most the gap apart, in columns and in rows.
pub fn boxes_meet(table: &[PieceEntry], layout: &[PlaceEntry], i: usize, k: usize, gap: u32) -> bool
    requires fact_1 { (i < length table.now) × (k < length table.now) }
    requires fact_2 { (i < length layout.now) × (k < length layout.now) }
    requires fact_3 { gap ≤ gap_bound }
    ensures { result ≡ false → (size : JobSize) (pixels : List ℕ) → size.gap ≡ gap → pair_conflicts (job_of (lent_by size table.now pixels)) (layout_of layout.now) (pair_of i k) ≡ false }
{
    let place = place_at(layout, i);
    let other = place_at(layout, k);
    let turn = place.turn;
    let other_turn = other.turn;
    let a = piece_pixels::turned_sides(table, i, turn);
    let b = piece_pixels::turned_sides(table, k, other_turn);
    if !spans_meet(
        place.x.0 as usize,
        a.columns,
        other.x.0 as usize,
        b.columns,
        gap,
    ) {
        return false;
    }
    spans_meet(place.y.0 as usize, a.rows, other.y.0 as usize, b.rows, gap)
}
