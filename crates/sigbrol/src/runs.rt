// Line search, descent and guided run.
ghost use Rattle.std.specs.Prelude.{◌≡◌};
ghost use Rattle.model.specs.Guided as model;
ghost use Rattle.model.specs.Lent.{job_of};
ghost use Rattle.model.specs.Buffer.{turn_of, layout_of, end_number};
ghost use Rattle.model.specs.Calls.{leaving, search_call, descent_call, descent_after, guided_call, best_after_run, weights_after_run};
ghost use Rattle.descent_laws.specs.Claims.{DescentClaims, GuidedClaims};
ghost use Rattle.call_laws.specs.Workspaces.{LeftFree};
ghost use Rattle.c_interface.specs.Numbers.{lent_as, line_of, piece_with_turn};
ghost use Rattle.c_interface.specs.Replies.{reply_to};
ghost use Rattle.c_results.specs.Runs.{descent_told, guided_told};

use c_interface::{Reply, done, line_of, piece_with_turn, refused, size_of};
use c_results::{coordinate_number, end_number, put_run};
use layout_places::turn_or_zero;
use model::{PieceEntry, PlaceEntry};

// The best place of a piece on a line.
#[unsafe(no_mangle)]
pub extern "C" fn sigbrol_line_search(
    rows: usize,
    columns: usize,
    count: usize,
    gap: usize,
    table: &[PieceEntry],
    pixels: &[u8],
    layout: &[PlaceEntry],
    weights: &[u32],
    piece: usize,
    turn: u16,
    vertical: u8,
    held: u16,
    sum: &mut u64,
    at: &mut usize,
) -> Reply
    ensures answer { result ≡ reply_to (search_call (lent_as rows columns count gap table.now pixels.now) layout.now weights.now (piece_with_turn turn piece) (turn_of turn) (line_of vertical held)) }
    ensures sum { sum.new ≡ leaving (λ a. a.sum) sum.old (search_call (lent_as rows columns count gap table.now pixels.now) layout.now weights.now (piece_with_turn turn piece) (turn_of turn) (line_of vertical held)) }
    ensures at { at.new ≡ leaving (λ a. a.at) at.old (search_call (lent_as rows columns count gap table.now pixels.now) layout.now weights.now (piece_with_turn turn piece) (turn_of turn) (line_of vertical held)) }
{
    let size = size_of(rows, columns, count, gap);
    match search_calls::line_search(
        size,
        table,
        pixels,
        layout,
        weights,
        piece_with_turn(turn, piece),
        turn_or_zero(turn),
        line_of(vertical, held),
    ) {
        Ok(best) => {
            *sum = best.sum;
            *at = coordinate_number(best.at);
            done()
        }
        Err(refusal) => refused(refusal),
    }
}

// A descent: the layout at its end, how it ended, its sum, trials and moves.
#[unsafe(no_mangle)]
pub extern "C" fn sigbrol_descent(
    rows: usize,
    columns: usize,
    count: usize,
    gap: usize,
    table: &[PieceEntry],
    pixels: &[u8],
    layout: &mut [PlaceEntry],
    weights: &[u32],
    budget: u32,
    workspace: &mut [u64],
    end: &mut u8,
    sum: &mut u64,
    trials: &mut u64,
    moves: &mut u64,
) -> Reply
    ensures answer { result ≡ reply_to (descent_call (lent_as rows columns count gap table.now pixels.now) layout.old weights.now budget) }
    ensures memory { layout.new ≡ descent_after layout.old (descent_call (lent_as rows columns count gap table.now pixels.now) layout.old weights.now budget) }
    ensures workspace { LeftFree (descent_call (lent_as rows columns count gap table.now pixels.now) layout.old weights.now budget) workspace.old workspace.new }
    ensures end { end.new ≡ leaving (λ a. end_number a.end) end.old (descent_call (lent_as rows columns count gap table.now pixels.now) layout.old weights.now budget) }
    ensures sum { sum.new ≡ leaving (λ a. a.sum) sum.old (descent_call (lent_as rows columns count gap table.now pixels.now) layout.old weights.now budget) }
    ensures trials { trials.new ≡ leaving (λ a. a.made) trials.old (descent_call (lent_as rows columns count gap table.now pixels.now) layout.old weights.now budget) }
    ensures moves { moves.new ≡ leaving (λ a. a.moves) moves.old (descent_call (lent_as rows columns count gap table.now pixels.now) layout.old weights.now budget) }
    ensures demand3 { result.number ≡ 0 → DescentClaims (job_of (lent_as rows columns count gap table.now pixels.now)) weights.now budget (layout_of layout.old) (descent_told end.new sum.new trials.new moves.new (layout_of layout.new)) }
{
    match run_descent_calls::descent(
        size_of(rows, columns, count, gap),
        table,
        pixels,
        layout,
        weights,
        budget,
        workspace,
    ) {
        Ok(ended) => {
            let how = ended.end;
            *end = end_number(how);
            put_run(
                ended.sum,
                ended.made as u64,
                ended.moves as u64,
                sum,
                trials,
                moves,
            );
            done()
        }
        Err(refusal) => refused(refusal),
    }
}

// A guided run: the best layout, the weights after it, the best layout's plain sum, trials and moves.
#[unsafe(no_mangle)]
pub extern "C" fn sigbrol_guided_run(
    rows: usize,
    columns: usize,
    count: usize,
    gap: usize,
    table: &[PieceEntry],
    pixels: &[u8],
    layout: &mut [PlaceEntry],
    weights: &mut [u32],
    rounds: u32,
    budget: u32,
    workspace: &mut [u64],
    sum: &mut u64,
    trials: &mut u64,
    moves: &mut u64,
) -> Reply
    ensures answer { result ≡ reply_to (guided_call (lent_as rows columns count gap table.now pixels.now) layout.old weights.old rounds budget) }
    ensures best { layout.new ≡ best_after_run layout.old (guided_call (lent_as rows columns count gap table.now pixels.now) layout.old weights.old rounds budget) }
    ensures raised { weights.new ≡ weights_after_run weights.old (guided_call (lent_as rows columns count gap table.now pixels.now) layout.old weights.old rounds budget) }
    ensures workspace { LeftFree (guided_call (lent_as rows columns count gap table.now pixels.now) layout.old weights.old rounds budget) workspace.old workspace.new }
    ensures sum { sum.new ≡ leaving (λ a. a.sum) sum.old (guided_call (lent_as rows columns count gap table.now pixels.now) layout.old weights.old rounds budget) }
    ensures trials { trials.new ≡ leaving (λ a. a.made) trials.old (guided_call (lent_as rows columns count gap table.now pixels.now) layout.old weights.old rounds budget) }
    ensures moves { moves.new ≡ leaving (λ a. a.moves) moves.old (guided_call (lent_as rows columns count gap table.now pixels.now) layout.old weights.old rounds budget) }
    ensures demand3 { result.number ≡ 0 → GuidedClaims (job_of (lent_as rows columns count gap table.now pixels.now)) weights.old rounds budget (layout_of layout.old) (model.rounds (job_of (lent_as rows columns count gap table.now pixels.now)) rounds budget weights.old (layout_of layout.old)) (guided_told sum.new trials.new moves.new (layout_of layout.new) weights.new) }
{
    let size = size_of(rows, columns, count, gap);
    match run_guided_calls::guided_run(
        size, table, pixels, layout, weights, rounds, budget, workspace,
    ) {
        Ok(run) => {
            put_run(run.sum, run.made, run.moves, sum, trials, moves);
            done()
        }
        Err(refusal) => refused(refusal),
    }
}
