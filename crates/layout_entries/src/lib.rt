// A layout buffer in the form in which a layout is written: what a call that changes single entries begins with, so that the buffer at its end is
// the layout's.
#![tactic(auto)]

ghost use Rattle.std.specs.Prelude.{◌≡◌};
ghost use Rattle.model.specs.Buffer.{layout_of, entries_of};

use model::PlaceEntry;

// Writes each entry of a layout buffer again, as the placement that it is read as. What a reader sees stays the same.
pub fn write_entries(layout: &mut [PlaceEntry])
    ensures { layout.new ≡ entries_of (layout_of layout.old) }
{
    for i in 0..layout.len() {
        layout[i] = layout_places::entry_of(layout_places::place_at(layout, i));
    }
}
