// The test for refusal 8 of lay and withdraw: a record and counts that some list of calls gives. Every entry is blank or a piece laid
// well, and the counts are those that the laid pieces make anew.
#![tactic(auto)]

ghost use Rattle.std.specs.Prelude.{◌≡◌, true, List, ℕ, ◌*◌, ◌<◌, ◌≤◌, length};
ghost use Rattle.model.specs.Bounded.{all_below};
ghost use Rattle.model.specs.Lent.{lent_by, job_of, lent_well, piece_bound};
ghost use Rattle.model.specs.Cover.{entry_in, is_blank, entry_well, sheet_well};
ghost use Rattle.sheet_check.specs.Counted.{CanCount, Recounted, added_entry, counts_well};

use layout_places::known;
use model::{AREA_BOUND, Entry, JobSize, PIECE_BOUND, PieceEntry, Record};
use sheet_counts::Change;

// The entry of piece i.
pub fn entry_of(sheet: Record, i: usize) -> Entry
    requires { i < piece_bound }
    ensures { result ≡ entry_in sheet.pieces i }
{
    sheet.pieces[i]
}

// The entry is that of a piece that is not laid.
fn is_blank(entry: Entry) -> bool
    ensures { result ≡ is_blank entry }
{
    if entry.laid {
        return false;
    }
    let place = entry.place;
    let turn = place.turn;
    if layout_places::degrees_of(turn) != 0 {
        return false;
    }
    if place.x.0 != 0 {
        return false;
    }
    place.y.0 == 0
}

// The entry of piece i is blank, or that of a piece of the job laid inside in an allowed turn.
fn entry_well(size: JobSize, table: &[PieceEntry], sheet: Record, i: usize) -> bool
    requires { (size.count ≤ length table.now) × (i < piece_bound) }
    ensures { (pixels : List ℕ) → result ≡ entry_well (job_of (lent_by size table.now pixels)) sheet.pieces i }
{
    let entry = entry_of(sheet, i);
    if is_blank(entry) {
        return true;
    }
    if !entry.laid {
        return false;
    }
    let place = entry.place;
    let turn = place.turn;
    if !known(size, table, i, turn) {
        return false;
    }
    layout_places::inside(size, table, i, place)
}

// Every entry is well.
fn entries_well(size: JobSize, table: &[PieceEntry], sheet: Record) -> bool
    requires { size.count ≤ length table.now }
    ensures { (pixels : List ℕ) → result ≡ all_below piece_bound (entry_well (job_of (lent_by size table.now pixels)) sheet.pieces) }
{
    (0..PIECE_BOUND).all(|i| entry_well(size, table, sheet, i))
}

// One more on each pixel that piece i covers, where it is laid.
fn add_entry(
    size: JobSize,
    table: &[PieceEntry],
    pixels: &[u8],
    sheet: Record,
    i: usize,
    made: &mut [u8],
)
    requires { CanCount (lent_by size table.now pixels.now) sheet.pieces (length made.old) × (i < size.count) }
    ensures { made.new ≡ added_entry (job_of (lent_by size table.now pixels.now)) sheet.pieces i made.old }
{
    let entry = entry_of(sheet, i);
    if !entry.laid {
        return;
    }
    let place = entry.place;
    sheet_counts::move_piece(size, table, pixels, i, place, Change::OneMore, made);
}

// The counts that the laid pieces make.
fn recount(size: JobSize, table: &[PieceEntry], pixels: &[u8], sheet: Record, made: &mut [u8])
    requires { CanCount (lent_by size table.now pixels.now) sheet.pieces (length made.old) }
    ensures { Recounted (job_of (lent_by size table.now pixels.now)) sheet.pieces made.new }
{
    sheet_counts::clear(made);
    for piece in 0..size.count {
        add_entry(size, table, pixels, sheet, piece, made);
    }
}

// Each count is the number of laid pieces on its pixel; `made` is room for the counts made anew.
fn counts_match(
    size: JobSize,
    table: &[PieceEntry],
    pixels: &[u8],
    sheet: Record,
    counts: &[u8],
    made: &mut [u8],
) -> bool
    requires { CanCount (lent_by size table.now pixels.now) sheet.pieces (length counts.now) × (length counts.now ≤ length made.old) }
    ensures { result ≡ counts_well (job_of (lent_by size table.now pixels.now)) sheet.pieces counts.now }
{
    let n = counts.len();
    recount(size, table, pixels, sheet, &mut made[..n]);
    check::same(&made[..n], &counts[..n])
}

// Each count is the number of laid pieces on its pixel.
fn counts_well(
    size: JobSize,
    table: &[PieceEntry],
    pixels: &[u8],
    sheet: Record,
    counts: &[u8],
) -> bool
    requires { CanCount (lent_by size table.now pixels.now) sheet.pieces (length counts.now) }
    ensures { result ≡ counts_well (job_of (lent_by size table.now pixels.now)) sheet.pieces counts.now }
{
    let mut made = [0u8; AREA_BOUND];
    counts_match(size, table, pixels, sheet, counts, &mut made)
}

// The record and the counts are some that a list of calls gives.
pub fn sheet_well(
    size: JobSize,
    table: &[PieceEntry],
    pixels: &[u8],
    sheet: Record,
    counts: &[u8],
) -> bool
    requires { (lent_well (lent_by size table.now pixels.now) ≡ true) × (length counts.now ≡ size.rows * size.columns) }
    ensures { result ≡ sheet_well (job_of (lent_by size table.now pixels.now)) (record { pieces = sheet.pieces; counts = counts.now }) }
{
    if !entries_well(size, table, sheet) {
        return false;
    }
    counts_well(size, table, pixels, sheet, counts)
}
