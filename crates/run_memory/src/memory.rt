// The memory of a run, of a descent alone or of the rounds of a guided run: strips, trials, kept lines and the table of penalties, all of it local
// and spread over nested functions, since it is too much for one; and kept maps, in a workspace that the caller lends.
ghost use Rattle.std.specs.Prelude.{◌≡◌, ◌≤◌, List, ℕ, length, get_or};
ghost use Rattle.model.specs.Lent.{Lent, lent_by, job_of};
ghost use Rattle.model.specs.declared.Direction.{Direction};
ghost use Rattle.search_lines.specs.Kept.{least_maps, lines_bound, MapsReady};
ghost use Rattle.search_shapes.specs.Shapes.{Shapes};
ghost use Rattle.search_beside.specs.Ready.{LinesReady};
ghost use Rattle.run_trials.specs.Trials.{TrialList};
ghost use Rattle.run_step.specs.Ready.{LaidOut};
ghost use Rattle.run_rounds.specs.Rounds.{InRange};
ghost use Rattle.run_memory.specs.Ready.{Given};
ghost use Rattle.run_memory.specs.Done.{AloneInRange, AloneDone, RoundsDone};

use layout_places::copy;
use model::{Direction, JobSize, PIECE_BOUND, PieceEntry, PlaceEntry, StripEntry};
use run_descent::{Ended, descend};
use run_rounds::{Tally, Terms, rounds};
use run_trials::{TRIAL_BOUND, make_trials};
use search_lines::{LEAST_MAPS, RUN_SLOTS, RunSize, ready_maps};
use search_shapes::{STARTS_LENGTH, empty_store, make_shapes};
use search_table::penalties_of;

// The bytes of a store of penalty lines: a quarter of them tells where each line stands.
const LINES_LENGTH: usize = 524288;

// The most words of a workspace that are used: more than the maps of any job.
const MOST_MAPS: usize = 33554432;

// One descent alone, with a budget.
#[derive(Clone, Copy)]
pub struct Alone {
    pub budget: u32,
}

// What a run does in its memory: one descent alone, or rounds on given terms.
pub trait Plan {
    // What the run comes to beside its buffers.
    type Outcome;

    // The plan's numbers are in document 01's range.
    ghost in_range: { Self → Type 0 };

    // What the run from a layout and weights comes to, by the plan: what is told of it, the new layout and the new weights.
    ghost comes_to: { Lent → List (List ℕ) → List ℕ → Self → Self.Outcome → List (List ℕ) → List ℕ → Type 0 };

    // The run that is planned.
    fn carry_out(
        self,
        run: RunSize,
        table: &[PieceEntry],
        pixels: &[u8],
        strips: &[StripEntry],
        starts: &[u32],
        trials: &[u16],
        layout: &mut [PlaceEntry],
        weights: &mut [u32],
        penalties: &mut [u8],
        lines: &mut [u8],
        maps: &mut [u64],
    ) -> Self::Outcome
        requires given { Given (lent_by run.size table.now pixels.now) layout.old weights.old }
        requires range { in_range self }
        requires lines_ready { LinesReady (lent_by run.size table.now pixels.now) run strips.now starts.now lines.old maps.old }
        requires laid_out { LaidOut (lent_by run.size table.now pixels.now) layout.old penalties.old }
        requires trial_list { TrialList (job_of (lent_by run.size table.now pixels.now)) trials.now }
        ensures { comes_to (lent_by run.size table.now pixels.now) layout.old weights.old self result layout.new weights.new };
}

impl Plan for Alone {
    type Outcome = Ended;

    ghost in_range = { AloneInRange };

    ghost comes_to = { AloneDone };

    // The descent: the weights stay as they are.
    fn carry_out(
        self,
        run: RunSize,
        table: &[PieceEntry],
        pixels: &[u8],
        strips: &[StripEntry],
        starts: &[u32],
        trials: &[u16],
        layout: &mut [PlaceEntry],
        weights: &mut [u32],
        penalties: &mut [u8],
        lines: &mut [u8],
        maps: &mut [u64],
    ) -> Ended {
        descend(
            run,
            table,
            pixels,
            strips,
            starts,
            trials,
            weights,
            self.budget,
            layout,
            penalties,
            lines,
            maps,
        )
    }
}

impl Plan for Terms {
    type Outcome = Tally;

    ghost in_range = { InRange };

    ghost comes_to = { RoundsDone };

    // The rounds, with a buffer for the layout at hand; the best one stands in the lent buffer.
    fn carry_out(
        self,
        run: RunSize,
        table: &[PieceEntry],
        pixels: &[u8],
        strips: &[StripEntry],
        starts: &[u32],
        trials: &[u16],
        layout: &mut [PlaceEntry],
        weights: &mut [u32],
        penalties: &mut [u8],
        lines: &mut [u8],
        maps: &mut [u64],
    ) -> Tally {
        let mut present = [[0u16; 3]; PIECE_BOUND];
        let n = run.size.count;
        copy(layout, &mut present[..n]);
        rounds(
            run,
            table,
            pixels,
            strips,
            starts,
            trials,
            self,
            &mut present[..n],
            layout,
            weights,
            penalties,
            lines,
            maps,
        )
    }
}

// Room for kept lines, with no stretch in it. A proof that saw the literal would compute with it.
fn empty_lines() -> [u8; LINES_LENGTH]
    ensures { (length result ≡ lines_bound) × ((k : ℕ) → get_or result k 0 ≡ 0) }
{
    [0u8; LINES_LENGTH]
}

// Room for the maps of a run that is lent none. What it holds plays no part.
fn empty_maps() -> [u64; LEAST_MAPS]
    ensures { length result ≡ least_maps }
{
    [0u64; LEAST_MAPS]
}

// The run, with a store for lines. It keeps a frame of its own: in its caller's it would lie on the stack while `penalties_of` takes 400 KB there.
#[inline(never)]
fn with_lines<P: Plan>(
    size: JobSize,
    table: &[PieceEntry],
    pixels: &[u8],
    strips: &[StripEntry],
    starts: &[u32],
    trials: &[u16],
    plan: P,
    layout: &mut [PlaceEntry],
    weights: &mut [u32],
    penalties: &mut [u8],
    maps: &mut [u64],
) -> P::Outcome
    requires given_1 { Given (lent_by size table.now pixels.now) layout.old weights.old }
    requires given_2 { P.in_range plan }
    requires given_3 { Shapes Direction.Horizontal (job_of (lent_by size table.now pixels.now)) strips.now starts.now }
    requires laid_out_1 { LaidOut (lent_by size table.now pixels.now) layout.old penalties.old }
    requires laid_out_2 { TrialList (job_of (lent_by size table.now pixels.now)) trials.now }
    requires laid_out_3 { MapsReady (job_of (lent_by size table.now pixels.now)) maps.old }
    ensures { P.comes_to (lent_by size table.now pixels.now) layout.old weights.old plan result layout.new weights.new }
{
    let mut lines = empty_lines();
    let run = RunSize {
        size,
        slots: RUN_SLOTS,
    };
    plan.carry_out(
        run, table, pixels, strips, starts, trials, layout, weights, penalties, &mut lines, maps,
    )
}

// The run, with a store of maps of its own.
fn with_own_maps<P: Plan>(
    size: JobSize,
    table: &[PieceEntry],
    pixels: &[u8],
    strips: &[StripEntry],
    starts: &[u32],
    trials: &[u16],
    plan: P,
    layout: &mut [PlaceEntry],
    weights: &mut [u32],
    penalties: &mut [u8],
) -> P::Outcome
    requires fact_1 { Given (lent_by size table.now pixels.now) layout.old weights.old }
    requires fact_2 { P.in_range plan }
    requires fact_3 { Shapes Direction.Horizontal (job_of (lent_by size table.now pixels.now)) strips.now starts.now }
    requires fact_4 { LaidOut (lent_by size table.now pixels.now) layout.old penalties.old }
    requires fact_5 { TrialList (job_of (lent_by size table.now pixels.now)) trials.now }
    ensures { P.comes_to (lent_by size table.now pixels.now) layout.old weights.old plan result layout.new weights.new }
{
    let mut maps = empty_maps();
    ready_maps(size, table, pixels, &mut maps);
    with_lines(
        size, table, pixels, strips, starts, trials, plan, layout, weights, penalties, &mut maps,
    )
}

// The run, with its maps in the workspace, or in a store of its own where the workspace is too short for the largest map.
fn with_workspace<P: Plan>(
    size: JobSize,
    table: &[PieceEntry],
    pixels: &[u8],
    strips: &[StripEntry],
    starts: &[u32],
    trials: &[u16],
    plan: P,
    layout: &mut [PlaceEntry],
    weights: &mut [u32],
    penalties: &mut [u8],
    workspace: &mut [u64],
) -> P::Outcome
    requires fact_1 { Given (lent_by size table.now pixels.now) layout.old weights.old }
    requires fact_2 { P.in_range plan }
    requires fact_3 { Shapes Direction.Horizontal (job_of (lent_by size table.now pixels.now)) strips.now starts.now }
    requires fact_4 { LaidOut (lent_by size table.now pixels.now) layout.old penalties.old }
    requires fact_5 { TrialList (job_of (lent_by size table.now pixels.now)) trials.now }
    ensures { P.comes_to (lent_by size table.now pixels.now) layout.old weights.old plan result layout.new weights.new }
{
    let used = workspace.len().min(MOST_MAPS);
    if used < LEAST_MAPS {
        return with_own_maps(
            size, table, pixels, strips, starts, trials, plan, layout, weights, penalties,
        );
    }
    let maps: &mut [u64] = &mut workspace[..used];
    ready_maps(size, table, pixels, maps);
    with_lines(
        size, table, pixels, strips, starts, trials, plan, layout, weights, penalties, maps,
    )
}

// The run, with the strips of every piece in every turn along rows, the list of trials and the table of penalties.
pub fn with_strips<P: Plan>(
    size: JobSize,
    table: &[PieceEntry],
    pixels: &[u8],
    plan: P,
    layout: &mut [PlaceEntry],
    weights: &mut [u32],
    workspace: &mut [u64],
) -> P::Outcome
    requires fact_1 { Given (lent_by size table.now pixels.now) layout.old weights.old }
    requires fact_2 { P.in_range plan }
    ensures { P.comes_to (lent_by size table.now pixels.now) layout.old weights.old plan result layout.new weights.new }
{
    let mut penalties = penalties_of(size, table, pixels, layout);
    let mut trials = [0u16; TRIAL_BOUND];
    let count = make_trials(size, table, &mut trials);
    let mut strips = empty_store();
    let mut starts = [0u32; STARTS_LENGTH];
    make_shapes(
        size,
        table,
        pixels,
        Direction::Horizontal,
        &mut strips,
        &mut starts,
    );
    with_workspace(
        size,
        table,
        pixels,
        &strips,
        &starts,
        &trials[..count],
        plan,
        layout,
        weights,
        &mut penalties,
        workspace,
    )
}
