// The strips of all pieces of a layout, made before they are pushed.
ghost use Rattle.layout_strips.specs.Kept.{Drawable, Kept};
ghost use Rattle.layout_slides.specs.Slidable.{Drawn};

use layout_strips::{StripSpan, draw};
use model::{Direction, PieceEntry, PlaceEntry, StripEntry};

// Makes the strips of every piece of a layout along a direction.
pub fn draw_all(
    table: &[PieceEntry],
    pixels: &[u8],
    layout: &[PlaceEntry],
    direction: Direction,
    store: &mut [StripEntry],
    spans: &mut [StripSpan],
)
    requires fact_1 { Drawable table.now layout.now }
    requires fact_2 { Kept direction table.now pixels.now layout.now store.old spans.old }
    ensures { Drawn direction table.now pixels.now layout.now store.new spans.new }
{
    for i in 0..layout.len() {
        draw(table, pixels, layout, i, direction, store, spans);
    }
}
