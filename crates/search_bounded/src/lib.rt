// The line search with a bound. Document 01, 'Line search': the best inside corner on a line, the other pieces fixed. The sums at all places
// of the line are made at once, piece after piece, each from the line of penalties of the two pieces, which is kept for later searches. A
// trial of the descent asks only for sums below a bound, so a piece is left out where every sum in its reach is at the bound already.
#![tactic(auto)]

mod others;

ghost use Rattle.std.specs.Prelude.{◌≡◌, ℕ, ◌<◌, ◌≤◌, length, get_or};
ghost use Rattle.model.specs.Search.{places, sum_at};
ghost use Rattle.model.specs.Lent.{lent_by, job_of};
ghost use Rattle.model.specs.Buffer.{layout_of};
ghost use Rattle.descent_laws.specs.Claims.{ValidWeights};
ghost use Rattle.descent_laws.specs.LentLayout.{Laid};
ghost use Rattle.search_laws.specs.BoundedSearch.{below_bound};
ghost use Rattle.search_line_sums.specs.Answers.{found_answer};
ghost use Rattle.search_beside.specs.Ready.{LinesReady, OnTrack};

use model::{COLUMN_BOUND, PieceEntry, PlaceEntry, StripEntry};
use others::{Wanted, add_others};
use search_beside::Sweep;
use search_line_sums::{Least, least_below};
use search_lines::RunSize;
use search_tracks::{Mover, track_of};

// The places of a line that has sums of its own: most lines have no more.
const SHORT_LINE: usize = 512;

// The search, over a sum for each place of the line, 0 at first.
fn search_over(
    run: RunSize,
    table: &[PieceEntry],
    pixels: &[u8],
    strips: &[StripEntry],
    starts: &[u32],
    layout: &[PlaceEntry],
    weights: &[u32],
    wanted: Wanted,
    lines: &mut [u8],
    maps: &mut [u64],
    sums: &mut [u32],
) -> Option<Least>
    requires fact_1 { LinesReady (lent_by run.size table.now pixels.now) run strips.now starts.now lines.old maps.old }
    requires fact_2 { Laid (lent_by run.size table.now pixels.now) layout.now }
    requires fact_3 { ValidWeights (job_of (lent_by run.size table.now pixels.now)) weights.now }
    requires fact_4 { OnTrack (lent_by run.size table.now pixels.now) wanted.sweep.mover wanted.sweep.track }
    requires fact_5 { (length sums.old ≡ wanted.sweep.track.places) × ((a : ℕ) → get_or sums.old a 0 ≡ 0) }
    ensures found { result ≡ found_answer (below_bound (sum_at (job_of (lent_by run.size table.now pixels.now)) weights.now (layout_of layout.now) wanted.sweep.mover.piece wanted.sweep.mover.turn wanted.sweep.mover.line) (places (job_of (lent_by run.size table.now pixels.now)) wanted.sweep.mover.piece wanted.sweep.mover.turn wanted.sweep.mover.line) wanted.bound) }
    ensures ready { LinesReady (lent_by run.size table.now pixels.now) run strips.now starts.now lines.new maps.new }
{
    add_others(
        run, table, pixels, strips, starts, layout, weights, wanted, lines, maps, sums,
    );
    least_below(sums, wanted.bound)
}

// The search on a line of few places.
fn search_short(
    run: RunSize,
    table: &[PieceEntry],
    pixels: &[u8],
    strips: &[StripEntry],
    starts: &[u32],
    layout: &[PlaceEntry],
    weights: &[u32],
    wanted: Wanted,
    lines: &mut [u8],
    maps: &mut [u64],
) -> Option<Least>
    requires fact_1 { LinesReady (lent_by run.size table.now pixels.now) run strips.now starts.now lines.old maps.old }
    requires fact_2 { Laid (lent_by run.size table.now pixels.now) layout.now }
    requires fact_3 { ValidWeights (job_of (lent_by run.size table.now pixels.now)) weights.now }
    requires fact_4 { OnTrack (lent_by run.size table.now pixels.now) wanted.sweep.mover wanted.sweep.track }
    requires fact_5 { wanted.sweep.track.places ≤ 512 }
    ensures found { result ≡ found_answer (below_bound (sum_at (job_of (lent_by run.size table.now pixels.now)) weights.now (layout_of layout.now) wanted.sweep.mover.piece wanted.sweep.mover.turn wanted.sweep.mover.line) (places (job_of (lent_by run.size table.now pixels.now)) wanted.sweep.mover.piece wanted.sweep.mover.turn wanted.sweep.mover.line) wanted.bound) }
    ensures ready { LinesReady (lent_by run.size table.now pixels.now) run strips.now starts.now lines.new maps.new }
{
    let mut sums = [0u32; SHORT_LINE];
    let count = wanted.sweep.track.places;
    search_over(
        run,
        table,
        pixels,
        strips,
        starts,
        layout,
        weights,
        wanted,
        lines,
        maps,
        &mut sums[..count],
    )
}

// The search on a line of any number of places.
fn search_long(
    run: RunSize,
    table: &[PieceEntry],
    pixels: &[u8],
    strips: &[StripEntry],
    starts: &[u32],
    layout: &[PlaceEntry],
    weights: &[u32],
    wanted: Wanted,
    lines: &mut [u8],
    maps: &mut [u64],
) -> Option<Least>
    requires fact_1 { LinesReady (lent_by run.size table.now pixels.now) run strips.now starts.now lines.old maps.old }
    requires fact_2 { Laid (lent_by run.size table.now pixels.now) layout.now }
    requires fact_3 { ValidWeights (job_of (lent_by run.size table.now pixels.now)) weights.now }
    requires fact_4 { OnTrack (lent_by run.size table.now pixels.now) wanted.sweep.mover wanted.sweep.track }
    ensures found { result ≡ found_answer (below_bound (sum_at (job_of (lent_by run.size table.now pixels.now)) weights.now (layout_of layout.now) wanted.sweep.mover.piece wanted.sweep.mover.turn wanted.sweep.mover.line) (places (job_of (lent_by run.size table.now pixels.now)) wanted.sweep.mover.piece wanted.sweep.mover.turn wanted.sweep.mover.line) wanted.bound) }
    ensures ready { LinesReady (lent_by run.size table.now pixels.now) run strips.now starts.now lines.new maps.new }
{
    let mut sums = [0u32; COLUMN_BOUND];
    let count = wanted.sweep.track.places;
    search_over(
        run,
        table,
        pixels,
        strips,
        starts,
        layout,
        weights,
        wanted,
        lines,
        maps,
        &mut sums[..count],
    )
}

// The least pair sum of the mover below the bound over every inside corner on its line, and the smallest coordinate that has it. The sums are
// local, and a short line does not pay for the clearing of those of a long one.
pub fn search_below(
    run: RunSize,
    table: &[PieceEntry],
    pixels: &[u8],
    strips: &[StripEntry],
    starts: &[u32],
    layout: &[PlaceEntry],
    weights: &[u32],
    mover: Mover,
    bound: u32,
    lines: &mut [u8],
    maps: &mut [u64],
) -> Option<Least>
    requires fact_1 { LinesReady (lent_by run.size table.now pixels.now) run strips.now starts.now lines.old maps.old }
    requires fact_2 { Laid (lent_by run.size table.now pixels.now) layout.now }
    requires fact_3 { ValidWeights (job_of (lent_by run.size table.now pixels.now)) weights.now }
    requires fact_4 { mover.piece < run.size.count }
    ensures found { result ≡ found_answer (below_bound (sum_at (job_of (lent_by run.size table.now pixels.now)) weights.now (layout_of layout.now) mover.piece mover.turn mover.line) (places (job_of (lent_by run.size table.now pixels.now)) mover.piece mover.turn mover.line) bound) }
    ensures ready { LinesReady (lent_by run.size table.now pixels.now) run strips.now starts.now lines.new maps.new }
{
    let size = run.size;
    let track = track_of(size, table, mover);
    let sweep = Sweep { mover, track };
    let wanted = Wanted { sweep, bound };
    if track.places <= SHORT_LINE {
        return search_short(
            run, table, pixels, strips, starts, layout, weights, wanted, lines, maps,
        );
    }
    search_long(
        run, table, pixels, strips, starts, layout, weights, wanted, lines, maps,
    )
}
