// Depth and penalty of two placed pieces by a gap. Document 01, 'No-fit rows and penalty', and document 02, point 4. The strips of both pieces
// in their turns are put into one local store, the second piece's behind the first's, and the functions of pair_overlap are lent each piece's
// part of it. A store is cleared when it is made, so that small pieces have a small one.
//
// What a penalty costs: a walk over two stretches takes a step for each strip of the lines that both pieces have, and a depth a few
// walks for each sign, two where each line has one strip and there is no gap, and with a gap as many for each distance of lines up to it; the
// penalty is at most two depths, the second cut off at the first.
#![tactic(auto)]

ghost use Rattle.std.specs.Prelude.{◌≡◌, true, min, ◌<◌, ◌≤◌, ◌^◌, length};
ghost use Rattle.model.specs.Piece.{corner, gap_bound};
ghost use Rattle.model.specs.Strip.{strips};
ghost use Rattle.model.specs.Overlap.{conflict_depth, conflict_penalty};
ghost use Rattle.model.specs.Layout.{turned_piece};
ghost use Rattle.model.specs.Lent.{lent_by, job_of, pixel_start, piece_bound};
ghost use Rattle.model.specs.declared.JobSize.{JobSize};
ghost use Rattle.job_laws.specs.Entries.{EntryAt};
ghost use Rattle.strip_scan.specs.Put.{Appended};
ghost use Rattle.pair_overlap.specs.Seen.{seen};
ghost use Rattle.pair_measure.specs.Ready.{MeasureReady, Together, Roomy, pair_room, small_room};

use model::{Direction, PieceEntry, Placement, StripEntry, Turn};
use pair_overlap::Corner;
use piece_table::area_of;

// The most strips of two pieces of a job along a direction.
const PAIR_ROOM: usize = 33023;

// The strips of a small store: room for those of two pieces whose boxes have 7,682 pixels together.
const SMALL_ROOM: usize = 4096;

// A store with room for the strips of any two pieces of a job along a direction. What it holds plays no part.
fn empty_store() -> [StripEntry; PAIR_ROOM]
    ensures { length result ≡ pair_room }
{
    [[0u8; 3]; PAIR_ROOM]
}

// A small store. What it holds plays no part.
fn small_store() -> [StripEntry; SMALL_ROOM]
    ensures { length result ≡ small_room }
{
    [[0u8; 3]; SMALL_ROOM]
}

// Whether a small store has room for the strips of two pieces.
fn few_strips(table: &[PieceEntry], i: usize, k: usize) -> bool
    requires { (i < length table.now) × (k < length table.now) }
    ensures { result ≡ true → Roomy table.now i k small_room }
{
    area_of(table, i) + area_of(table, k) + 510 <= 2 * SMALL_ROOM
}

// Puts the strips of a piece in a turn into a store from `at` on, and tells where the next strip would stand.
fn fill(
    table: &[PieceEntry],
    pixels: &[u8],
    i: usize,
    turn: Turn,
    direction: Direction,
    store: &mut [StripEntry],
    at: usize,
) -> usize
    requires { (EntryAt table.now i (pixel_start table.now i) × (i ≤ piece_bound)) × (at ≤ 2 ^ 32) }
    ensures { (size : JobSize) → Appended (strips direction (turned_piece (job_of (lent_by size table.now pixels.now)) i turn)) store.old at store.new result }
{
    let start = job_check::pixel_start(table, i);
    strip_scan::put::put_piece(table, pixels, i, start, turn, direction, store, at)
}

// A placement's corner as a direction sees it.
pub fn corner_along(place: Placement, direction: Direction) -> Corner
    ensures { result ≡ seen direction (corner place) }
{
    let x = place.x.0 as u32;
    let y = place.y.0 as u32;
    match direction {
        Direction::Horizontal => Corner {
            along: x,
            across: y,
        },
        Direction::Vertical => Corner {
            along: y,
            across: x,
        },
    }
}

// The depth of two placed pieces along a direction by a gap, cut off at a bound, with their strips in a lent store.
fn depth_in(
    table: &[PieceEntry],
    pixels: &[u8],
    i: usize,
    p: Placement,
    k: usize,
    q: Placement,
    direction: Direction,
    gap: u32,
    bound: u32,
    store: &mut [StripEntry],
) -> u32
    requires fact_1 { MeasureReady table.now i p }
    requires fact_2 { MeasureReady table.now k q }
    requires fact_3 { (gap ≤ gap_bound) × (bound ≤ 264) }
    requires fact_4 { Roomy table.now i k (length store.old) }
    ensures { (size : JobSize) → result ≡ min (conflict_depth gap direction (turned_piece (job_of (lent_by size table.now pixels.now)) i p.turn) (corner p) (turned_piece (job_of (lent_by size table.now pixels.now)) k q.turn) (corner q)) bound }
{
    let first = p.turn;
    let second = q.turn;
    let front = 0;
    let middle = fill(table, pixels, i, first, direction, store, front);
    let end = fill(table, pixels, k, second, direction, store, middle);
    let u = corner_along(p, direction);
    let v = corner_along(q, direction);
    let strips = &store[..];
    pair_overlap::depth_below(
        &strips[front..middle],
        u,
        &strips[middle..end],
        v,
        gap,
        bound,
    )
}

// The depth of two placed pieces along a direction by a gap, cut off at a bound. With the bound 1 it tells whether they conflict, and the walk
// ends at the first two strips that do.
pub fn placed_depth(
    table: &[PieceEntry],
    pixels: &[u8],
    i: usize,
    p: Placement,
    k: usize,
    q: Placement,
    direction: Direction,
    gap: u32,
    bound: u32,
) -> u32
    requires fact_1 { MeasureReady table.now i p }
    requires fact_2 { MeasureReady table.now k q }
    requires fact_3 { Together table.now i k }
    requires fact_4 { (gap ≤ gap_bound) × (bound ≤ 264) }
    ensures { (size : JobSize) → result ≡ min (conflict_depth gap direction (turned_piece (job_of (lent_by size table.now pixels.now)) i p.turn) (corner p) (turned_piece (job_of (lent_by size table.now pixels.now)) k q.turn) (corner q)) bound }
{
    if few_strips(table, i, k) {
        let mut store = small_store();
        return depth_in(table, pixels, i, p, k, q, direction, gap, bound, &mut store);
    }
    let mut store = empty_store();
    depth_in(table, pixels, i, p, k, q, direction, gap, bound, &mut store)
}

// The penalty of two placed pieces by a gap: the lesser depth. The lent store holds the row strips, then the column strips; the second depth is cut
// off at the first, and not asked for where that is 0.
fn penalty_in(
    table: &[PieceEntry],
    pixels: &[u8],
    i: usize,
    p: Placement,
    k: usize,
    q: Placement,
    gap: u32,
    store: &mut [StripEntry],
) -> u32
    requires fact_1 { MeasureReady table.now i p }
    requires fact_2 { MeasureReady table.now k q }
    requires fact_3 { gap ≤ gap_bound }
    requires fact_4 { Roomy table.now i k (length store.old) }
    ensures { (size : JobSize) → result ≡ conflict_penalty gap (turned_piece (job_of (lent_by size table.now pixels.now)) i p.turn) (corner p) (turned_piece (job_of (lent_by size table.now pixels.now)) k q.turn) (corner q) }
{
    let along_rows = depth_in(
        table,
        pixels,
        i,
        p,
        k,
        q,
        Direction::Horizontal,
        gap,
        264,
        store,
    );
    if along_rows == 0 {
        return 0;
    }
    depth_in(
        table,
        pixels,
        i,
        p,
        k,
        q,
        Direction::Vertical,
        gap,
        along_rows,
        store,
    )
}

// The penalty of two placed pieces by a gap.
pub fn placed_penalty(
    table: &[PieceEntry],
    pixels: &[u8],
    i: usize,
    p: Placement,
    k: usize,
    q: Placement,
    gap: u32,
) -> u32
    requires fact_1 { MeasureReady table.now i p }
    requires fact_2 { MeasureReady table.now k q }
    requires fact_3 { Together table.now i k }
    requires fact_4 { gap ≤ gap_bound }
    ensures { (size : JobSize) → result ≡ conflict_penalty gap (turned_piece (job_of (lent_by size table.now pixels.now)) i p.turn) (corner p) (turned_piece (job_of (lent_by size table.now pixels.now)) k q.turn) (corner q) }
{
    if few_strips(table, i, k) {
        let mut store = small_store();
        return penalty_in(table, pixels, i, p, k, q, gap, &mut store);
    }
    let mut store = empty_store();
    penalty_in(table, pixels, i, p, k, q, gap, &mut store)
}
