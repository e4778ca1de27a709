// What an exported call hands over beside its reply: yes or no, a descent's end and a place as numbers, the numbers of a job and of a run, and
// a step of the cut list.
#![tactic(auto)]

ghost use Rattle.std.specs.Prelude.{◌≡◌};
ghost use Rattle.model.specs.Bounded.{one_if};
ghost use Rattle.model.specs.Piece.{coordinate_number};
ghost use Rattle.model.specs.Buffer.{end_number};
ghost use Rattle.c_results.specs.Steps.{step_word, step_x, step_y};

use model::{Coordinate, CutStep, End, JobSize};

// 1 for yes, 0 for no.
pub fn bit_of(yes: bool) -> u8
    ensures { result ≡ one_if yes }
{
    if yes { 1 } else { 0 }
}

// The number of a descent's end.
pub fn end_number(end: End) -> u8
    ensures { result ≡ end_number end }
{
    match end {
        End::Clear => 0,
        End::Settled => 1,
        End::Spent => 2,
    }
}

// The number that a coordinate stands for.
pub fn coordinate_number(coordinate: Coordinate) -> usize
    ensures { result ≡ coordinate_number coordinate }
{
    match coordinate {
        Coordinate::AtColumn(x) => x.0 as usize,
        Coordinate::AtRow(y) => y.0 as usize,
    }
}

// Hands over the numbers of a job.
pub fn put_size(
    size: JobSize,
    rows: &mut usize,
    columns: &mut usize,
    count: &mut usize,
    gap: &mut usize,
)
    ensures rows { rows.new ≡ size.rows }
    ensures columns { columns.new ≡ size.columns }
    ensures count { count.new ≡ size.count }
    ensures gap { gap.new ≡ size.gap }
{
    *rows = size.rows;
    *columns = size.columns;
    *count = size.count;
    *gap = size.gap;
}

// Hands over what a run comes to beside its buffers: a sum, how many trials were made, and how many moves.
pub fn put_run(total: u64, made: u64, moved: u64, sum: &mut u64, trials: &mut u64, moves: &mut u64)
    ensures sum { sum.new ≡ total }
    ensures trials { trials.new ≡ made }
    ensures moves { moves.new ≡ moved }
{
    *sum = total;
    *trials = made;
    *moves = moved;
}

// Hands over a step of the cut list: its word, and its point where it has one.
pub fn put_step(step: CutStep, word: &mut u8, x: &mut f64, y: &mut f64)
    ensures word { word.new ≡ step_word step }
    ensures x { x.new ≡ step_x x.old step }
    ensures y { y.new ≡ step_y y.old step }
{
    match step {
        CutStep::Done => {
            *word = 0;
        }
        CutStep::Lift(across, up) => {
            *word = 1;
            *x = across;
            *y = up;
        }
        CutStep::Cut(across, up) => {
            *word = 2;
            *x = across;
            *y = up;
        }
    }
}
