// The preview of a move: the weighted sum and the used length that a layout would have with one piece placed anew. Document 02, point 3, and
// document 01, 'When a call says no'. The layout is lent for reading; the figures are measured on a copy.
#![tactic(auto)]

ghost use Rattle.std.specs.Prelude.{◌≡◌, ◌<◌, length};
ghost use Rattle.model.specs.Answers.{first_cause};
ghost use Rattle.model.specs.Layout.{with_place, figures};
ghost use Rattle.model.specs.Lent.{lent_by, job_of};
ghost use Rattle.model.specs.Buffer.{layout_of};
ghost use Rattle.model.specs.Calls.{preview_causes, preview_call};
ghost use Rattle.model.specs.declared.Figures.{Figures};
ghost use Rattle.descent_laws.specs.Claims.{ValidWeights};
ghost use Rattle.descent_laws.specs.LentLayout.{Laid};
ghost use Rattle.call_laws.specs.Previews.{entries_with, PreviewClaims};
ghost use Rattle.layout_preview_calls.specs.Answers.{preview_answer};
ghost use Rattle.layout_preview_calls.specs.Movable.{Movable};

use causes::placing_causes;
use layout_length_calls::length_between_ends;
use layout_places::{copy, entry_of, inside};
use model::{Figures, JobSize, PIECE_BOUND, PieceEntry, PlaceEntry, Placement, Refusal, refused};
use search_sums::total;
use search_table::penalties_of;

// Makes a copy of a layout with one piece placed anew.
fn put_moved(layout: &[PlaceEntry], piece: usize, place: Placement, moved: &mut [PlaceEntry])
    requires fact_1 { length moved.old ≡ length layout.now }
    requires fact_2 { piece < length layout.now }
    ensures { moved.new ≡ entries_with layout.now piece place }
{
    copy(layout, moved);
    moved[piece] = entry_of(place);
}

// The figures of a layout with one piece placed anew, measured on a copy in a lent buffer.
fn figures_on(
    size: JobSize,
    table: &[PieceEntry],
    pixels: &[u8],
    layout: &[PlaceEntry],
    weights: &[u32],
    piece: usize,
    place: Placement,
    moved: &mut [PlaceEntry],
) -> Figures
    requires fact_1 { Laid (lent_by size table.now pixels.now) layout.now }
    requires fact_2 { ValidWeights (job_of (lent_by size table.now pixels.now)) weights.now }
    requires fact_3 { Movable (lent_by size table.now pixels.now) piece place }
    requires fact_4 { length moved.old ≡ size.count }
    ensures { result ≡ figures (job_of (lent_by size table.now pixels.now)) weights.now (with_place (layout_of layout.now) piece place) }
{
    put_moved(layout, piece, place, moved);
    let penalties = penalties_of(size, table, pixels, moved);
    let sum = total(&penalties, weights, size.count);
    let length = length_between_ends(size, table, moved) as u64;
    Figures { sum, length }
}

// The figures of a layout with one piece placed anew.
fn figures_moved(
    size: JobSize,
    table: &[PieceEntry],
    pixels: &[u8],
    layout: &[PlaceEntry],
    weights: &[u32],
    piece: usize,
    place: Placement,
) -> Figures
    requires fact_1 { Laid (lent_by size table.now pixels.now) layout.now }
    requires fact_2 { ValidWeights (job_of (lent_by size table.now pixels.now)) weights.now }
    requires fact_3 { Movable (lent_by size table.now pixels.now) piece place }
    ensures { result ≡ figures (job_of (lent_by size table.now pixels.now)) weights.now (with_place (layout_of layout.now) piece place) }
{
    let mut moved = [[0u16; 3]; PIECE_BOUND];
    let n = size.count;
    figures_on(
        size,
        table,
        pixels,
        layout,
        weights,
        piece,
        place,
        &mut moved[..n],
    )
}

// The causes of a preview: those of placing the piece in its new turn, and 10 where its new placement is outside.
fn preview_causes(
    size: JobSize,
    table: &[PieceEntry],
    pixels: &[u8],
    layout: &[PlaceEntry],
    weights: &[u32],
    piece: usize,
    place: Placement,
) -> Result<(), Refusal>
    ensures { result ≡ first_cause (preview_causes (lent_by size table.now pixels.now) layout.now weights.now piece place) }
{
    let turn = place.turn;
    placing_causes(size, table, pixels, layout, weights, piece, turn)?;
    if !inside(size, table, piece, place) {
        return refused(10);
    }
    Ok(())
}

// The weighted sum and the used length of the layout with the piece placed as given, or their refusal.
pub fn preview(
    size: JobSize,
    table: &[PieceEntry],
    pixels: &[u8],
    layout: &[PlaceEntry],
    weights: &[u32],
    piece: usize,
    place: Placement,
) -> Result<Figures, Refusal>
    ensures answer { result ≡ preview_answer (preview_call (lent_by size table.now pixels.now) layout.now weights.now piece place) }
    ensures figures { (f : Figures) → result ≡ Ok f → PreviewClaims (lent_by size table.now pixels.now) layout.now weights.now piece place f }
{
    preview_causes(size, table, pixels, layout, weights, piece, place)?;
    Ok(figures_moved(size, table, pixels, layout, weights, piece, place))
}
