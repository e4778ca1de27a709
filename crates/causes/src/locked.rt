// The causes of refusal of a start, in the documents' order: 8, 7, and 9 and 10 of the locked placements (document 02, point 6). The entry of a free
// piece is not read.
ghost use Rattle.std.specs.Prelude.{◌≡◌, true, false, not, ◌&&◌, List, [], ℕ, ◌<◌, ◌≤◌, length, get_or};
ghost use Rattle.model.specs.Answers.{first_cause};
ghost use Rattle.model.specs.Layout.{is_locked, inside, place_of};
ghost use Rattle.model.specs.Lent.{lent_by, job_of};
ghost use Rattle.model.specs.Buffer.{layout_of};
ghost use Rattle.model.specs.Calls.{allowed_degrees, locked_turn_wrong, locked_outside, start_causes};
ghost use Rattle.model.specs.declared.JobSize.{JobSize};
ghost use Rattle.causes.specs.Locked.{LockedWhole, LockedWritten};

use layout_places::{allowed_degrees, inside, place_at};
use model::{JobSize, PieceEntry, PlaceEntry, Refusal, refused};
use piece_table::is_locked;

// The turn of an entry is not allowed to piece i.
fn entry_wrong(table: &[PieceEntry], i: usize, entry: PlaceEntry) -> bool
    requires { i < length table.now }
    ensures wrong { (size : JobSize) (pixels : List ℕ) → result ≡ not (allowed_degrees (job_of (lent_by size table.now pixels)) i (get_or entry 0 0)) }
    ensures whole { length entry ≡ 3 }
{
    !allowed_degrees(table, i, entry[0])
}

// Piece i is locked, and its turn is not allowed to it.
fn turn_wrong(table: &[PieceEntry], layout: &[PlaceEntry], i: usize) -> bool
    requires { (i < length table.now) × (i < length layout.now) }
    ensures wrong { (size : JobSize) (pixels : List ℕ) → result ≡ (is_locked (job_of (lent_by size table.now pixels)) i && not (allowed_degrees (job_of (lent_by size table.now pixels)) i (get_or (get_or layout.now i []) 0 0))) }
    ensures whole { (size : JobSize) (pixels : List ℕ) → is_locked (job_of (lent_by size table.now pixels)) i ≡ true → length (get_or layout.now i []) ≡ 3 }
{
    if !is_locked(table, i) {
        return false;
    }
    entry_wrong(table, i, layout[i])
}

// Piece i is locked, and its placement is outside.
fn outside(size: JobSize, table: &[PieceEntry], layout: &[PlaceEntry], i: usize) -> bool
    requires { (i < length table.now) × (i < length layout.now) }
    ensures { (pixels : List ℕ) → result ≡ (is_locked (job_of (lent_by size table.now pixels)) i && not (inside (job_of (lent_by size table.now pixels)) i (place_of (layout_of layout.now) i))) }
{
    if is_locked(table, i) {
        return !inside(size, table, i, place_at(layout, i));
    }
    false
}

// Cause 9 of a start: some locked piece's turn is not allowed to it.
fn some_turn_wrong(size: JobSize, table: &[PieceEntry], layout: &[PlaceEntry]) -> bool
    requires { (size.count ≤ length table.now) × (length layout.now ≡ size.count) }
    ensures wrong { (pixels : List ℕ) → result ≡ locked_turn_wrong (job_of (lent_by size table.now pixels)) layout.now }
    ensures whole { result ≡ false → (pixels : List ℕ) → LockedWhole (job_of (lent_by size table.now pixels)) layout.now }
{
    (0..size.count).any(|i| turn_wrong(table, layout, i))
}

// Cause 10 of a start: some locked piece's placement is outside.
fn some_outside(size: JobSize, table: &[PieceEntry], layout: &[PlaceEntry]) -> bool
    requires { (size.count ≤ length table.now) × (length layout.now ≡ size.count) }
    ensures { (pixels : List ℕ) → result ≡ locked_outside (job_of (lent_by size table.now pixels)) (layout_of layout.now) }
{
    (0..size.count).any(|i| outside(size, table, layout, i))
}

// The causes of a start: 8, 7, 9, 10.
pub fn start_causes(
    size: JobSize,
    table: &[PieceEntry],
    pixels: &[u8],
    layout: &[PlaceEntry],
) -> Result<(), Refusal>
    ensures first { result ≡ first_cause (start_causes (lent_by size table.now pixels.now) layout.now) }
    ensures written { result ≡ Ok tt → LockedWritten (job_of (lent_by size table.now pixels.now)) layout.now }
{
    if !job_check::check_job(size, table, pixels) {
        return refused(8);
    }
    if layout.len() != size.count {
        return refused(7);
    }
    if some_turn_wrong(size, table, layout) {
        return refused(9);
    }
    if some_outside(size, table, layout) {
        return refused(10);
    }
    Ok(())
}
