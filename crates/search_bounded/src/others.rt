// What one standing piece adds to the sums along a line, read from the kept line of penalties of the two pieces.
ghost use Rattle.std.specs.Prelude.{◌≡◌, ℕ, ◌+◌, ◌-◌, ◌<◌, ◌≤◌, length, get_or, take, drop};
ghost use Rattle.model.specs.Lent.{lent_by, job_of};
ghost use Rattle.model.specs.Guided.{weight_bound};
ghost use Rattle.model.specs.Buffer.{layout_of};
ghost use Rattle.descent_laws.specs.Claims.{ValidWeights};
ghost use Rattle.descent_laws.specs.LentLayout.{Laid};
ghost use Rattle.search_line_sums.specs.Added.{LineAdded};
ghost use Rattle.search_lines.specs.Kept.{lines_bound};
ghost use Rattle.search_beside.specs.Ready.{LinesReady, OnTrack};
ghost use Rattle.search_bounded.specs.Summing.{Summed};

use model::{PieceEntry, PlaceEntry, StripEntry};
use search_beside::{Sweep, beside, line_with, near_pieces};
use search_line_sums::{add_line, any_below};
use search_lines::RunSize;
use search_sums::weight_between;
use search_tracks::{Reach, reach_of};

// What is looked for: the sums of a piece on its way along a line that are below a bound.
#[derive(Clone, Copy)]
pub struct Wanted {
    pub sweep: Sweep,
    pub bound: u32,
}

// Adds weight × penalty to the sums in reach, from the line that begins at a place of the store.
fn add_reached(sums: &mut [u32], lines: &[u8], slot: usize, reach: Reach, weight: u32)
    requires fact_1 { (slot + reach.from + (reach.high - reach.low) ≤ length lines.now) × (length lines.now ≤ lines_bound) }
    requires fact_2 { (reach.low < reach.high) × (reach.high ≤ length sums.old) }
    requires fact_3 { weight ≤ weight_bound }
    requires fact_4 { ((a : ℕ) → get_or sums.old a 0 ≤ 1073741824) }
    ensures { LineAdded weight reach.low (take (slot + reach.from + (reach.high - reach.low) - (slot + reach.from)) (drop (slot + reach.from) lines.now)) sums.old sums.new }
{
    let low = reach.low;
    let from = slot + reach.from;
    let end = from + (reach.high - low);
    add_line(sums, low, &lines[from..end], weight);
}

// Adds piece k's part to the sums. It is left out where every sum in its reach is at the bound already.
fn add_other(
    run: RunSize,
    table: &[PieceEntry],
    pixels: &[u8],
    strips: &[StripEntry],
    starts: &[u32],
    layout: &[PlaceEntry],
    weights: &[u32],
    wanted: Wanted,
    k: usize,
    lines: &mut [u8],
    maps: &mut [u64],
    sums: &mut [u32],
)
    requires fact_1 { LinesReady (lent_by run.size table.now pixels.now) run strips.now starts.now lines.old maps.old }
    requires fact_2 { Laid (lent_by run.size table.now pixels.now) layout.now }
    requires fact_3 { ValidWeights (job_of (lent_by run.size table.now pixels.now)) weights.now }
    requires fact_4 { OnTrack (lent_by run.size table.now pixels.now) wanted.sweep.mover wanted.sweep.track }
    requires fact_5 { (k < run.size.count) × Summed (job_of (lent_by run.size table.now pixels.now)) weights.now (layout_of layout.now) wanted.sweep.mover wanted.bound k sums.old }
    ensures summed { Summed (job_of (lent_by run.size table.now pixels.now)) weights.now (layout_of layout.now) wanted.sweep.mover wanted.bound (k + 1) sums.new }
    ensures ready { LinesReady (lent_by run.size table.now pixels.now) run strips.now starts.now lines.new maps.new }
{
    let sweep = wanted.sweep;
    let mover = sweep.mover;
    let track = sweep.track;
    if k == mover.piece {
        return;
    }
    let size = run.size;
    let standing = beside(size, table, layout, mover, k);
    let reach = reach_of(track, standing);
    let low = reach.low;
    let high = reach.high;
    if high <= low {
        return;
    }
    if !any_below(&sums[low..high], wanted.bound) {
        return;
    }
    let weight = weight_between(weights, run.size.count, mover.piece, k) as u32;
    let slot = line_with(
        run, table, pixels, strips, starts, sweep, standing, k, lines, maps,
    );
    add_reached(sums, lines, slot, reach, weight);
}

// Adds the part of every piece to the sums: the pieces that the mover cannot meet are passed over.
pub fn add_others(
    run: RunSize,
    table: &[PieceEntry],
    pixels: &[u8],
    strips: &[StripEntry],
    starts: &[u32],
    layout: &[PlaceEntry],
    weights: &[u32],
    wanted: Wanted,
    lines: &mut [u8],
    maps: &mut [u64],
    sums: &mut [u32],
)
    requires fact_1 { LinesReady (lent_by run.size table.now pixels.now) run strips.now starts.now lines.old maps.old }
    requires fact_2 { Laid (lent_by run.size table.now pixels.now) layout.now }
    requires fact_3 { ValidWeights (job_of (lent_by run.size table.now pixels.now)) weights.now }
    requires fact_4 { OnTrack (lent_by run.size table.now pixels.now) wanted.sweep.mover wanted.sweep.track }
    requires fact_5 { Summed (job_of (lent_by run.size table.now pixels.now)) weights.now (layout_of layout.now) wanted.sweep.mover wanted.bound 0 sums.old }
    ensures summed { Summed (job_of (lent_by run.size table.now pixels.now)) weights.now (layout_of layout.now) wanted.sweep.mover wanted.bound run.size.count sums.new }
    ensures ready { LinesReady (lent_by run.size table.now pixels.now) run strips.now starts.now lines.new maps.new }
{
    let size = run.size;
    let mover = wanted.sweep.mover;
    let track = wanted.sweep.track;
    let mut left = near_pieces(size, table, layout, mover, track);
    // A while: each turn takes the lowest bit that is left, whatever its place.
    while left != 0 {
        let k = u64::trailing_zeros(left) as usize;
        add_other(
            run, table, pixels, strips, starts, layout, weights, wanted, k, lines, maps, sums,
        );
        left = left & (left - 1);
    }
}
