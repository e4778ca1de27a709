// The owner of each pixel of the sheet, a byte a pixel: 0 where no piece lies on it, else the number of the piece plus 1. Document 02, point 2.
#![tactic(auto)]

ghost use Rattle.std.specs.Prelude.{◌≡◌, ◌+◌, ◌*◌, ◌<◌, length};
ghost use Rattle.model.specs.Lent.{lent_by, job_of};
ghost use Rattle.model.specs.Layout.{place_of};
ghost use Rattle.model.specs.Buffer.{layout_of};
ghost use Rattle.descent_laws.specs.LentLayout.{Laid};
ghost use Rattle.sheet_counts.specs.Stamp.{moved_by};
ghost use Rattle.sheet_counts.specs.declared.Change.TheVariants.{OwnedBy};
ghost use Rattle.cut_owners.specs.OwnersPainted.{OwnersPainted};

use layout_places::place_at;
use model::{JobSize, PieceEntry, PlaceEntry};
use sheet_counts::Change;

// Piece i's pixels become its own.
fn paint_piece(
    size: JobSize,
    table: &[PieceEntry],
    pixels: &[u8],
    layout: &[PlaceEntry],
    i: usize,
    owners: &mut [u8],
)
    requires { Laid (lent_by size table.now pixels.now) layout.now × (i < size.count) × (length owners.old ≡ size.rows * size.columns) }
    ensures { owners.new ≡ moved_by (OwnedBy (i + 1)) (job_of (lent_by size table.now pixels.now)) i (place_of (layout_of layout.now) i) owners.old }
{
    let place = place_at(layout, i);
    let owner = i as u8 + 1;
    sheet_counts::move_piece(
        size,
        table,
        pixels,
        i,
        place,
        Change::OwnedBy(owner),
        owners,
    );
}

// The owner of each pixel of the sheet.
pub fn paint(
    size: JobSize,
    table: &[PieceEntry],
    pixels: &[u8],
    layout: &[PlaceEntry],
    owners: &mut [u8],
)
    requires { Laid (lent_by size table.now pixels.now) layout.now × (length owners.old ≡ size.rows * size.columns) }
    ensures { OwnersPainted (job_of (lent_by size table.now pixels.now)) (layout_of layout.now) owners.new }
{
    sheet_counts::clear(owners);
    for piece in 0..size.count {
        paint_piece(size, table, pixels, layout, piece, owners);
    }
}
