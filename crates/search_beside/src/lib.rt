// The penalties of a moving piece and the pieces beside its line, read from kept lines: what a search adds up and what the table of pair
// penalties is renewed from. Nothing here knows a weight.
#![tactic(auto)]

ghost use Rattle.std.specs.Prelude.{◌≡◌, ◌≢◌, List, ℕ, ◌+◌, ◌-◌, ◌<◌, ◌≤◌, length};
ghost use Rattle.model.specs.Piece.{line_direction, on_line};
ghost use Rattle.model.specs.Layout.{Layout};
ghost use Rattle.model.specs.Search.{places, moved_to};
ghost use Rattle.model.specs.Lent.{lent_by, job_of, piece_bound, gap_bound};
ghost use Rattle.model.specs.Buffer.{layout_of};
ghost use Rattle.descent_laws.specs.LentLayout.{Laid};
ghost use Rattle.search_laws.specs.Lines.{middle};
ghost use Rattle.search_laws.specs.Table.{PenaltyTable, Renewed};
ghost use Rattle.search_tracks.specs.Boxes.{SmallTrack};
ghost use Rattle.search_beside.specs.Ready.{LinesReady, OnTrack, IsStanding};
ghost use Rattle.search_beside.specs.Reading.{mover_penalty, Apart, NearTold, LineRead};

use model::{JobSize, PIECE_BOUND, PieceEntry, PlaceEntry, StripEntry};
use search_lines::{MIDDLE, RunSize, Two, keep_line};
use search_tracks::{
    Mover, StandingPiece, Track, direction_of, meets_across, reach_of, standing_of, track_of,
};

// A piece on its way along a line, and its track there.
#[derive(Clone, Copy)]
pub struct Sweep {
    pub mover: Mover,
    pub track: Track,
}

// Piece k beside the mover's line.
pub fn beside(
    size: JobSize,
    table: &[PieceEntry],
    layout: &[PlaceEntry],
    mover: Mover,
    k: usize,
) -> StandingPiece
    requires fact_1 { (k < length table.now) × (k < length layout.now) }
    requires fact_2 { size.gap ≤ gap_bound }
    ensures { (pixels : List ℕ) → IsStanding (job_of (lent_by size table.now pixels)) (layout_of layout.now) (line_direction mover.line) k result }
{
    let line = mover.line;
    standing_of(size, table, layout, direction_of(line), k)
}

// Where the line of penalties of the mover and piece k begins in the store.
pub fn line_with(
    run: RunSize,
    table: &[PieceEntry],
    pixels: &[u8],
    strips: &[StripEntry],
    starts: &[u32],
    sweep: Sweep,
    standing: StandingPiece,
    k: usize,
    lines: &mut [u8],
    maps: &mut [u64],
) -> usize
    requires fact_1 { LinesReady (lent_by run.size table.now pixels.now) run strips.now starts.now lines.old maps.old }
    requires fact_2 { OnTrack (lent_by run.size table.now pixels.now) sweep.mover sweep.track }
    requires fact_3 { (k < run.size.count) × ((sweep.track.held ≤ standing.across + middle) × (standing.across + middle - sweep.track.held < 1024)) }
    requires fact_4 { sweep.mover.piece ≢ k }
    ensures line { (v : Layout) → IsStanding (job_of (lent_by run.size table.now pixels.now)) v (line_direction sweep.mover.line) k standing → LineRead (job_of (lent_by run.size table.now pixels.now)) v sweep.mover k lines.new result }
    ensures ready { LinesReady (lent_by run.size table.now pixels.now) run strips.now starts.now lines.new maps.new }
{
    let mover = sweep.mover;
    let line = mover.line;
    let moved_turn = mover.turn;
    let standing_turn = standing.turn;
    let two = Two {
        moved: mover.piece,
        moved_turn: moved_turn,
        standing: k,
        standing_turn: standing_turn,
        offset: standing.across + MIDDLE - sweep.track.held,
    };
    keep_line(
        run,
        table,
        pixels,
        direction_of(line),
        strips,
        starts,
        two,
        lines,
        maps,
    )
}

// The penalty of the mover at a place of its line and piece k.
fn penalty_at(
    run: RunSize,
    table: &[PieceEntry],
    pixels: &[u8],
    strips: &[StripEntry],
    starts: &[u32],
    layout: &[PlaceEntry],
    sweep: Sweep,
    k: usize,
    at: usize,
    lines: &mut [u8],
    maps: &mut [u64],
) -> u8
    requires fact_1 { LinesReady (lent_by run.size table.now pixels.now) run strips.now starts.now lines.old maps.old }
    requires fact_2 { Laid (lent_by run.size table.now pixels.now) layout.now }
    requires fact_3 { OnTrack (lent_by run.size table.now pixels.now) sweep.mover sweep.track }
    requires fact_4 { (k < run.size.count) × (sweep.mover.piece ≢ k) }
    requires fact_5 { at < sweep.track.places }
    ensures penalty { result ≡ mover_penalty (job_of (lent_by run.size table.now pixels.now)) (layout_of layout.now) sweep.mover at k }
    ensures ready { LinesReady (lent_by run.size table.now pixels.now) run strips.now starts.now lines.new maps.new }
{
    let mover = sweep.mover;
    let track = sweep.track;
    let size = run.size;
    let standing = beside(size, table, layout, mover, k);
    let reach = reach_of(track, standing);
    let low = reach.low;
    let high = reach.high;
    if at < low {
        return 0;
    }
    if high <= at {
        return 0;
    }
    let slot = line_with(
        run, table, pixels, strips, starts, sweep, standing, k, lines, maps,
    );
    let from = slot + reach.from + (at - low);
    lines[from]
}

// 1 where piece k's box meets the mover's across the line, else 0.
fn near_bit(
    size: JobSize,
    table: &[PieceEntry],
    layout: &[PlaceEntry],
    mover: Mover,
    track: Track,
    k: usize,
) -> u64
    requires fact_1 { SmallTrack track }
    requires fact_2 { (k < length table.now) × (k < length layout.now) }
    requires fact_3 { size.gap ≤ gap_bound }
    ensures bit { result < 2 }
    ensures apart { (pixels : List ℕ) → OnTrack (lent_by size table.now pixels) mover track → result ≡ 0 → Apart (job_of (lent_by size table.now pixels)) (layout_of layout.now) mover k }
{
    let standing = beside(size, table, layout, mover, k);
    if meets_across(track, standing) {
        return 1;
    }
    0
}

// A bit for each piece, set where its box meets the mover's across the line.
pub fn near_pieces(
    size: JobSize,
    table: &[PieceEntry],
    layout: &[PlaceEntry],
    mover: Mover,
    track: Track,
) -> u64
    requires fact_1 { SmallTrack track }
    requires fact_2 { (size.count ≤ piece_bound) × ((size.count ≤ length table.now) × (size.count ≤ length layout.now)) }
    requires fact_3 { size.gap ≤ gap_bound }
    ensures { (pixels : List ℕ) → OnTrack (lent_by size table.now pixels) mover track → NearTold (job_of (lent_by size table.now pixels)) (layout_of layout.now) mover size.count result }
{
    let mut near = 0;
    for k in 0..size.count {
        near = near | (near_bit(size, table, layout, mover, track, k) << k);
    }
    near
}

// Makes the table's entries of the mover, at a place of its line, and piece k.
fn renew_other(
    run: RunSize,
    table: &[PieceEntry],
    pixels: &[u8],
    strips: &[StripEntry],
    starts: &[u32],
    layout: &[PlaceEntry],
    sweep: Sweep,
    k: usize,
    at: usize,
    lines: &mut [u8],
    maps: &mut [u64],
    penalties: &mut [u8],
)
    requires fact_1 { LinesReady (lent_by run.size table.now pixels.now) run strips.now starts.now lines.old maps.old }
    requires fact_2 { Laid (lent_by run.size table.now pixels.now) layout.now }
    requires fact_3 { OnTrack (lent_by run.size table.now pixels.now) sweep.mover sweep.track }
    requires fact_4 { (k < run.size.count) × (at < sweep.track.places) }
    requires fact_5 { Renewed (job_of (lent_by run.size table.now pixels.now)) (layout_of layout.now) run.size.count sweep.mover.piece (on_line sweep.mover.line sweep.mover.turn at) k penalties.old }
    ensures renewed { Renewed (job_of (lent_by run.size table.now pixels.now)) (layout_of layout.now) run.size.count sweep.mover.piece (on_line sweep.mover.line sweep.mover.turn at) (k + 1) penalties.new }
    ensures ready { LinesReady (lent_by run.size table.now pixels.now) run strips.now starts.now lines.new maps.new }
{
    let i = sweep.mover.piece;
    if k == i {
        return;
    }
    let p = penalty_at(
        run, table, pixels, strips, starts, layout, sweep, k, at, lines, maps,
    );
    penalties[i * PIECE_BOUND + k] = p;
    penalties[k * PIECE_BOUND + i] = p;
}

// Makes the table's entries of the mover, at a place of its line, and every other piece.
fn renew_others(
    run: RunSize,
    table: &[PieceEntry],
    pixels: &[u8],
    strips: &[StripEntry],
    starts: &[u32],
    layout: &[PlaceEntry],
    sweep: Sweep,
    at: usize,
    lines: &mut [u8],
    maps: &mut [u64],
    penalties: &mut [u8],
)
    requires fact_1 { LinesReady (lent_by run.size table.now pixels.now) run strips.now starts.now lines.old maps.old }
    requires fact_2 { Laid (lent_by run.size table.now pixels.now) layout.now }
    requires fact_3 { OnTrack (lent_by run.size table.now pixels.now) sweep.mover sweep.track }
    requires fact_4 { at < sweep.track.places }
    requires fact_5 { Renewed (job_of (lent_by run.size table.now pixels.now)) (layout_of layout.now) run.size.count sweep.mover.piece (on_line sweep.mover.line sweep.mover.turn at) 0 penalties.old }
    ensures renewed { Renewed (job_of (lent_by run.size table.now pixels.now)) (layout_of layout.now) run.size.count sweep.mover.piece (on_line sweep.mover.line sweep.mover.turn at) run.size.count penalties.new }
    ensures ready { LinesReady (lent_by run.size table.now pixels.now) run strips.now starts.now lines.new maps.new }
{
    let count = run.size.count;
    for k in 0..count {
        renew_other(
            run, table, pixels, strips, starts, layout, sweep, k, at, lines, maps, penalties,
        );
    }
}

// Renews the table of pair penalties for the mover at a place of its line.
pub fn renew_placed(
    run: RunSize,
    table: &[PieceEntry],
    pixels: &[u8],
    strips: &[StripEntry],
    starts: &[u32],
    layout: &[PlaceEntry],
    mover: Mover,
    at: usize,
    lines: &mut [u8],
    maps: &mut [u64],
    penalties: &mut [u8],
)
    requires fact_1 { LinesReady (lent_by run.size table.now pixels.now) run strips.now starts.now lines.old maps.old }
    requires fact_2 { Laid (lent_by run.size table.now pixels.now) layout.now }
    requires fact_3 { (mover.piece < run.size.count) × (at < places (job_of (lent_by run.size table.now pixels.now)) mover.piece mover.turn mover.line) }
    requires fact_4 { PenaltyTable (job_of (lent_by run.size table.now pixels.now)) (layout_of layout.now) run.size.count penalties.old }
    ensures table { PenaltyTable (job_of (lent_by run.size table.now pixels.now)) (moved_to (layout_of layout.now) mover.piece mover.turn mover.line at) run.size.count penalties.new }
    ensures ready { LinesReady (lent_by run.size table.now pixels.now) run strips.now starts.now lines.new maps.new }
{
    let size = run.size;
    let track = track_of(size, table, mover);
    let sweep = Sweep { mover, track };
    renew_others(
        run, table, pixels, strips, starts, layout, sweep, at, lines, maps, penalties,
    );
}
