// The rounds of a guided run. Document 01, 'Descent and guidance': each round is a descent from where the one before it ended; the best
// layout is the one with the least plain sum so far; weights are raised after each round that is not clear.
#![tactic(auto)]

ghost use Rattle.std.specs.Prelude.{◌≡◌, ◌<◌, length};
ghost use Rattle.model.specs.Layout.{Job, Layout};
ghost use Rattle.model.specs.Guided.{is_clear};
ghost use Rattle.model.specs.Lent.{lent_by, job_of};
ghost use Rattle.descent_laws.specs.Claims.{ValidWeights};
ghost use Rattle.search_laws.specs.Table.{PenaltyTable};
ghost use Rattle.search_sums.specs.Table.{Weighed};
ghost use Rattle.run_trials.specs.Trials.{TrialList};
ghost use Rattle.search_beside.specs.Ready.{LinesReady};
ghost use Rattle.run_step.specs.Ready.{LaidOut};
ghost use Rattle.run_rounds.specs.Rounds.{better_round, better_sum, left_after, raised_after, InRange, Ran};

use layout_places::copy;
use model::{End, PieceEntry, PlaceEntry, StripEntry};
use run_descent::descend;
use search_lines::RunSize;
use search_sums::{plain_total, raise};

// What rounds come to beside the best layout and the weights: the best layout's plain sum, and the trials and moves of all rounds.
#[derive(Clone, Copy)]
pub struct Tally {
    pub sum: u64,
    pub made: u64,
    pub moves: u64,
}

// The terms of a guided run: how many rounds at most, and the budget of each.
#[derive(Clone, Copy)]
pub struct Terms {
    pub count: u32,
    pub budget: u32,
}

// Takes a round's end for the best layout where its plain sum is smaller; gives the best layout's plain sum.
fn keep_better(end: &[PlaceEntry], sum: u64, best: &mut [PlaceEntry], best_sum: u64) -> u64
    requires { length best.old ≡ length end.now }
    ensures layout { best.new ≡ better_round sum best_sum end.now best.old }
    ensures sum { result ≡ better_sum sum best_sum }
{
    if sum < best_sum {
        copy(end, best);
        return sum;
    }
    best_sum
}

// The round ended clear.
fn is_clear(end: End) -> bool
    ensures { result ≡ is_clear end }
{
    match end {
        End::Clear => true,
        End::Settled => false,
        End::Spent => false,
    }
}

// How many rounds are left after a round, of those that were left before it: none after a clear one. After any other, the last included,
// the weights are raised.
fn after_round(end: End, left: u32, penalties: &[u8], weights: &mut [u32], n: usize) -> u32
    requires fact_1 { Weighed n penalties.now weights.old }
    requires fact_2 { 0 < left }
    ensures left { result ≡ left_after end left }
    ensures weights { (j : Job) (v : Layout) → j.size.count ≡ n → PenaltyTable j v n penalties.now → ValidWeights j weights.old → weights.new ≡ raised_after j v end weights.old }
{
    let clear = is_clear(end);
    if clear {
        return 0;
    }
    raise(penalties, weights, n);
    left - 1
}

// At most so many rounds from the layout `present` on, which is the best so far. The best layout stands in `best` at the end.
pub fn rounds(
    run: RunSize,
    table: &[PieceEntry],
    pixels: &[u8],
    strips: &[StripEntry],
    starts: &[u32],
    trials: &[u16],
    terms: Terms,
    present: &mut [PlaceEntry],
    best: &mut [PlaceEntry],
    weights: &mut [u32],
    penalties: &mut [u8],
    lines: &mut [u8],
    maps: &mut [u64],
) -> Tally
    requires lines_ready_1 { LinesReady (lent_by run.size table.now pixels.now) run strips.now starts.now lines.old maps.old }
    requires lines_ready_2 { ValidWeights (job_of (lent_by run.size table.now pixels.now)) weights.old }
    requires lines_ready_3 { LaidOut (lent_by run.size table.now pixels.now) present.old penalties.old }
    requires best_value_1 { best.old ≡ present.old }
    requires best_value_2 { InRange terms }
    requires best_value_3 { TrialList (job_of (lent_by run.size table.now pixels.now)) trials.now }
    ensures { Ran (lent_by run.size table.now pixels.now) present.old weights.old terms.count terms.budget result best.new weights.new }
{
    let n = run.size.count;
    let mut sum = plain_total(penalties, n);
    let mut made: u64 = 0;
    let mut moves: u64 = 0;
    let mut left = terms.count;
    // A while: a round that ends clear leaves none.
    while 0 < left {
        let round = descend(
            run,
            table,
            pixels,
            strips,
            starts,
            trials,
            weights,
            terms.budget,
            present,
            penalties,
            lines,
            maps,
        );
        made = made + round.made as u64;
        moves = moves + round.moves as u64;
        let plain = plain_total(penalties, n);
        sum = keep_better(present, plain, best, sum);
        let end = round.end;
        left = after_round(end, left, penalties, weights, n);
    }
    Tally { sum, made, moves }
}
