// The pieces of a layout pushed left and down. Document 02, point 7: free pieces in number order slide left, then down, until neither moves them, and
// passes over all of them repeat until one moves nothing. The strips of all pieces along the rows and along the columns are lent; they do not
// depend on where the pieces lie.
#![tactic(auto)]

ghost use Rattle.std.specs.Prelude.{◌≡◌, false, ◌<◌};
ghost use Rattle.model.specs.Layout.{is_locked};
ghost use Rattle.model.specs.Lent.{lent_by, job_of};
ghost use Rattle.model.specs.Buffer.{layout_of, entries_of};
ghost use Rattle.model.specs.Compact.{until_at_rest, left_then_down, push_piece, pass, compact};
ghost use Rattle.layout_pushes.specs.Pushable.{Pushable};

use layout_slides::slide;
use layout_strips::StripSpan;
use model::{Direction, JobSize, PieceEntry, PlaceEntry, StripEntry};
use piece_table::is_locked;

// Piece i slides left, then down.
fn left_then_down(
    size: JobSize,
    table: &[PieceEntry],
    pixels: &[u8],
    layout: &mut [PlaceEntry],
    i: usize,
    rows: &[StripEntry],
    row_spans: &[StripSpan],
    columns: &[StripEntry],
    column_spans: &[StripSpan],
) -> u32
    requires fact_1 { Pushable (lent_by size table.now pixels.now) layout.old rows.now row_spans.now columns.now column_spans.now }
    requires fact_2 { i < size.count }
    requires fact_3 { is_locked (job_of (lent_by size table.now pixels.now)) i ≡ false }
    ensures slid { result ≡ (left_then_down (job_of (lent_by size table.now pixels.now)) i (layout_of layout.old)).slid }
    ensures layout { layout.new ≡ entries_of (left_then_down (job_of (lent_by size table.now pixels.now)) i (layout_of layout.old)).layout }
{
    let left = slide(
        size,
        table,
        pixels,
        layout,
        i,
        Direction::Horizontal,
        rows,
        row_spans,
    );
    let down = slide(
        size,
        table,
        pixels,
        layout,
        i,
        Direction::Vertical,
        columns,
        column_spans,
    );
    left + down
}

// A free piece slides left, then down, until neither moves it.
fn push_free(
    size: JobSize,
    table: &[PieceEntry],
    pixels: &[u8],
    layout: &mut [PlaceEntry],
    i: usize,
    rows: &[StripEntry],
    row_spans: &[StripSpan],
    columns: &[StripEntry],
    column_spans: &[StripSpan],
) -> u32
    requires fact_1 { Pushable (lent_by size table.now pixels.now) layout.old rows.now row_spans.now columns.now column_spans.now }
    requires fact_2 { i < size.count }
    requires fact_3 { is_locked (job_of (lent_by size table.now pixels.now)) i ≡ false }
    ensures slid { result ≡ (until_at_rest (left_then_down (job_of (lent_by size table.now pixels.now)) i) (layout_of layout.old)).slid }
    ensures layout { layout.new ≡ entries_of (until_at_rest (left_then_down (job_of (lent_by size table.now pixels.now)) i) (layout_of layout.old)).layout }
{
    let mut slid = 0;
    loop {
        let more = left_then_down(
            size,
            table,
            pixels,
            layout,
            i,
            rows,
            row_spans,
            columns,
            column_spans,
        );
        if more == 0 {
            return slid;
        }
        slid += more;
    }
}

// A piece is pushed until neither direction moves it, unless it is locked.
fn push_piece(
    size: JobSize,
    table: &[PieceEntry],
    pixels: &[u8],
    layout: &mut [PlaceEntry],
    i: usize,
    rows: &[StripEntry],
    row_spans: &[StripSpan],
    columns: &[StripEntry],
    column_spans: &[StripSpan],
) -> u32
    requires fact_1 { Pushable (lent_by size table.now pixels.now) layout.old rows.now row_spans.now columns.now column_spans.now }
    requires fact_2 { i < size.count }
    ensures slid { result ≡ (push_piece (job_of (lent_by size table.now pixels.now)) i (layout_of layout.old)).slid }
    ensures layout { layout.new ≡ entries_of (push_piece (job_of (lent_by size table.now pixels.now)) i (layout_of layout.old)).layout }
{
    if is_locked(table, i) {
        return 0;
    }
    push_free(
        size,
        table,
        pixels,
        layout,
        i,
        rows,
        row_spans,
        columns,
        column_spans,
    )
}

// A pass: every piece in number order.
fn push_each(
    size: JobSize,
    table: &[PieceEntry],
    pixels: &[u8],
    layout: &mut [PlaceEntry],
    rows: &[StripEntry],
    row_spans: &[StripSpan],
    columns: &[StripEntry],
    column_spans: &[StripSpan],
) -> u32
    requires { Pushable (lent_by size table.now pixels.now) layout.old rows.now row_spans.now columns.now column_spans.now }
    ensures slid { result ≡ (pass (job_of (lent_by size table.now pixels.now)) (layout_of layout.old)).slid }
    ensures layout { layout.new ≡ entries_of (pass (job_of (lent_by size table.now pixels.now)) (layout_of layout.old)).layout }
{
    let mut slid = 0;
    for i in 0..size.count {
        slid += push_piece(
            size,
            table,
            pixels,
            layout,
            i,
            rows,
            row_spans,
            columns,
            column_spans,
        );
    }
    slid
}

// Passes until one moves nothing: the layout that the pieces are pushed to, and the pixels that they slid.
pub fn push_all(
    size: JobSize,
    table: &[PieceEntry],
    pixels: &[u8],
    layout: &mut [PlaceEntry],
    rows: &[StripEntry],
    row_spans: &[StripSpan],
    columns: &[StripEntry],
    column_spans: &[StripSpan],
) -> u32
    requires { Pushable (lent_by size table.now pixels.now) layout.old rows.now row_spans.now columns.now column_spans.now }
    ensures slid { result ≡ (compact (job_of (lent_by size table.now pixels.now)) (layout_of layout.old)).slid }
    ensures layout { layout.new ≡ entries_of (compact (job_of (lent_by size table.now pixels.now)) (layout_of layout.old)).layout }
{
    let mut slid = 0;
    loop {
        let moved = push_each(
            size,
            table,
            pixels,
            layout,
            rows,
            row_spans,
            columns,
            column_spans,
        );
        let at_rest = moved == 0;
        if at_rest {
            return slid;
        }
        slid += moved;
    }
}
