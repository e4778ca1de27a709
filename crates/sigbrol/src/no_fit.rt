// No-fit rows and columns of two pieces.
ghost use Rattle.std.specs.Prelude.{◌≡◌, length};
ghost use Rattle.model.specs.Buffer.{turn_of};
ghost use Rattle.model.specs.Calls.{leaving, no_fit_call, runs_after};
ghost use Rattle.model.specs.declared.Direction.TheVariants.{Horizontal, Vertical};
ghost use Rattle.call_laws.specs.NoFits.{OffsetsWithin};
ghost use Rattle.pair_nofit_calls.specs.Lines.{lent_stretch};
ghost use Rattle.c_interface.specs.Numbers.{lent_as, piece_with_turn};
ghost use Rattle.c_interface.specs.Replies.{reply_to};

use c_interface::{Reply, done, piece_with_turn, refused, size_of};
use layout_places::turn_or_zero;
use model::{ColumnOffset, PieceEntry, RowOffset, StripEntry};
use pair_nofit_calls::PieceInTurn;

// The no-fit row of two pieces at a row offset: the column offsets at which they conflict.
#[unsafe(no_mangle)]
pub extern "C" fn sigbrol_no_fit_row(
    rows: usize,
    columns: usize,
    count: usize,
    gap: usize,
    table: &[PieceEntry],
    pixels: &[u8],
    i: usize,
    i_turn: u16,
    i_strips: &[StripEntry],
    k: usize,
    k_turn: u16,
    k_strips: &[StripEntry],
    offset: i32,
    runs: &mut [[i32; 2]],
    runs_count: &mut usize,
) -> Reply
    ensures answer { result ≡ reply_to (no_fit_call Horizontal (lent_as rows columns count gap table.now pixels.now) (lent_stretch (piece_with_turn i_turn i) (turn_of i_turn) i_strips.now) (lent_stretch (piece_with_turn k_turn k) (turn_of k_turn) k_strips.now) offset (length runs.old)) }
    ensures memory { runs.new ≡ runs_after runs.old (no_fit_call Horizontal (lent_as rows columns count gap table.now pixels.now) (lent_stretch (piece_with_turn i_turn i) (turn_of i_turn) i_strips.now) (lent_stretch (piece_with_turn k_turn k) (turn_of k_turn) k_strips.now) offset (length runs.old)) }
    ensures counted { runs_count.new ≡ leaving (λ a. length a) runs_count.old (no_fit_call Horizontal (lent_as rows columns count gap table.now pixels.now) (lent_stretch (piece_with_turn i_turn i) (turn_of i_turn) i_strips.now) (lent_stretch (piece_with_turn k_turn k) (turn_of k_turn) k_strips.now) offset (length runs.old)) }
    ensures offsets { result.number ≡ 0 → OffsetsWithin gap runs_count.new runs.new }
{
    let size = size_of(rows, columns, count, gap);
    let first = PieceInTurn {
        piece: piece_with_turn(i_turn, i),
        turn: turn_or_zero(i_turn),
    };
    let second = PieceInTurn {
        piece: piece_with_turn(k_turn, k),
        turn: turn_or_zero(k_turn),
    };
    match pair_nofit_calls::no_fit_row(
        size,
        table,
        pixels,
        first,
        i_strips,
        second,
        k_strips,
        RowOffset(offset),
        runs,
    ) {
        Ok(found) => {
            *runs_count = found as usize;
            done()
        }
        Err(refusal) => refused(refusal),
    }
}

// The no-fit column of two pieces at a column offset: the row offsets at which they conflict.
#[unsafe(no_mangle)]
pub extern "C" fn sigbrol_no_fit_column(
    rows: usize,
    columns: usize,
    count: usize,
    gap: usize,
    table: &[PieceEntry],
    pixels: &[u8],
    i: usize,
    i_turn: u16,
    i_strips: &[StripEntry],
    k: usize,
    k_turn: u16,
    k_strips: &[StripEntry],
    offset: i32,
    runs: &mut [[i32; 2]],
    runs_count: &mut usize,
) -> Reply
    ensures answer { result ≡ reply_to (no_fit_call Vertical (lent_as rows columns count gap table.now pixels.now) (lent_stretch (piece_with_turn i_turn i) (turn_of i_turn) i_strips.now) (lent_stretch (piece_with_turn k_turn k) (turn_of k_turn) k_strips.now) offset (length runs.old)) }
    ensures memory { runs.new ≡ runs_after runs.old (no_fit_call Vertical (lent_as rows columns count gap table.now pixels.now) (lent_stretch (piece_with_turn i_turn i) (turn_of i_turn) i_strips.now) (lent_stretch (piece_with_turn k_turn k) (turn_of k_turn) k_strips.now) offset (length runs.old)) }
    ensures counted { runs_count.new ≡ leaving (λ a. length a) runs_count.old (no_fit_call Vertical (lent_as rows columns count gap table.now pixels.now) (lent_stretch (piece_with_turn i_turn i) (turn_of i_turn) i_strips.now) (lent_stretch (piece_with_turn k_turn k) (turn_of k_turn) k_strips.now) offset (length runs.old)) }
    ensures offsets { result.number ≡ 0 → OffsetsWithin gap runs_count.new runs.new }
{
    let size = size_of(rows, columns, count, gap);
    let first = PieceInTurn {
        piece: piece_with_turn(i_turn, i),
        turn: turn_or_zero(i_turn),
    };
    let second = PieceInTurn {
        piece: piece_with_turn(k_turn, k),
        turn: turn_or_zero(k_turn),
    };
    match pair_nofit_calls::no_fit_column(
        size,
        table,
        pixels,
        first,
        i_strips,
        second,
        k_strips,
        ColumnOffset(offset),
        runs,
    ) {
        Ok(found) => {
            *runs_count = found as usize;
            done()
        }
        Err(refusal) => refused(refusal),
    }
}
