// A layout: its sums, its used length, the preview of a move, its check, the start layout, and the pieces pushed left and down.
ghost use Rattle.std.specs.Prelude.{◌≡◌};
ghost use Rattle.model.specs.Lent.{job_of};
ghost use Rattle.model.specs.Buffer.{placement, layout_of};
ghost use Rattle.model.specs.Calls.{leaving, layout_after, weighted_sum_call, plain_sum_call, used_length_call, preview_call, check_call, start_call};
ghost use Rattle.model.specs.Calls.{compact_call, compact_after};
ghost use Rattle.descent_laws.specs.Start.{StartClaims};
ghost use Rattle.call_laws.specs.Lengths.{UsedClaims};
ghost use Rattle.call_laws.specs.Previews.{PreviewClaims};
ghost use Rattle.call_laws.specs.Compacting.{CompactedClaims};
ghost use Rattle.c_interface.specs.Numbers.{lent_as, piece_with_turn};
ghost use Rattle.c_interface.specs.Replies.{reply_to};

use c_interface::{Reply, done, piece_with_turn, placement_of, refused, size_of};
use layout_preview_calls::preview;
use model::{PieceEntry, PlaceEntry};

// The weighted sum of a layout.
#[unsafe(no_mangle)]
pub extern "C" fn sigbrol_weighted_sum(
    rows: usize,
    columns: usize,
    count: usize,
    gap: usize,
    table: &[PieceEntry],
    pixels: &[u8],
    layout: &[PlaceEntry],
    weights: &[u32],
    sum: &mut u64,
) -> Reply
    ensures answer { result ≡ reply_to (weighted_sum_call (lent_as rows columns count gap table.now pixels.now) layout.now weights.now) }
    ensures sum { sum.new ≡ leaving (λ a. a) sum.old (weighted_sum_call (lent_as rows columns count gap table.now pixels.now) layout.now weights.now) }
{
    match layout_sum_calls::weighted_sum(
        size_of(rows, columns, count, gap),
        table,
        pixels,
        layout,
        weights,
    ) {
        Ok(total) => {
            *sum = total;
            done()
        }
        Err(refusal) => refused(refusal),
    }
}

// The plain sum of a layout.
#[unsafe(no_mangle)]
pub extern "C" fn sigbrol_plain_sum(
    rows: usize,
    columns: usize,
    count: usize,
    gap: usize,
    table: &[PieceEntry],
    pixels: &[u8],
    layout: &[PlaceEntry],
    sum: &mut u64,
) -> Reply
    ensures answer { result ≡ reply_to (plain_sum_call (lent_as rows columns count gap table.now pixels.now) layout.now) }
    ensures sum { sum.new ≡ leaving (λ a. a) sum.old (plain_sum_call (lent_as rows columns count gap table.now pixels.now) layout.now) }
{
    match layout_sum_calls::plain_sum(size_of(rows, columns, count, gap), table, pixels, layout) {
        Ok(total) => {
            *sum = total;
            done()
        }
        Err(refusal) => refused(refusal),
    }
}

// The used length of a layout.
#[unsafe(no_mangle)]
pub extern "C" fn sigbrol_used_length(
    rows: usize,
    columns: usize,
    count: usize,
    gap: usize,
    table: &[PieceEntry],
    pixels: &[u8],
    layout: &[PlaceEntry],
    used: &mut usize,
) -> Reply
    ensures answer { result ≡ reply_to (used_length_call (lent_as rows columns count gap table.now pixels.now) layout.now) }
    ensures used { used.new ≡ leaving (λ a. a) used.old (used_length_call (lent_as rows columns count gap table.now pixels.now) layout.now) }
    ensures length { result.number ≡ 0 → UsedClaims (job_of (lent_as rows columns count gap table.now pixels.now)) (layout_of layout.now) used.new }
{
    match layout_length_calls::used_length(
        size_of(rows, columns, count, gap),
        table,
        pixels,
        layout,
    ) {
        Ok(length) => {
            *used = length as usize;
            done()
        }
        Err(refusal) => refused(refusal),
    }
}

// The weighted sum and the used length that a layout would have with a piece placed anew.
#[unsafe(no_mangle)]
pub extern "C" fn sigbrol_preview(
    rows: usize,
    columns: usize,
    count: usize,
    gap: usize,
    table: &[PieceEntry],
    pixels: &[u8],
    layout: &[PlaceEntry],
    weights: &[u32],
    piece: usize,
    turn: u16,
    x: u16,
    y: u16,
    sum: &mut u64,
    used: &mut usize,
) -> Reply
    ensures answer { result ≡ reply_to (preview_call (lent_as rows columns count gap table.now pixels.now) layout.now weights.now (piece_with_turn turn piece) (placement turn x y)) }
    ensures sum { sum.new ≡ leaving (λ a. a.sum) sum.old (preview_call (lent_as rows columns count gap table.now pixels.now) layout.now weights.now (piece_with_turn turn piece) (placement turn x y)) }
    ensures used { used.new ≡ leaving (λ a. a.length) used.old (preview_call (lent_as rows columns count gap table.now pixels.now) layout.now weights.now (piece_with_turn turn piece) (placement turn x y)) }
    ensures figures { result.number ≡ 0 → PreviewClaims (lent_as rows columns count gap table.now pixels.now) layout.now weights.now (piece_with_turn turn piece) (placement turn x y) (record { sum = sum.new; length = used.new }) }
{
    match preview(
        size_of(rows, columns, count, gap),
        table,
        pixels,
        layout,
        weights,
        piece_with_turn(turn, piece),
        placement_of(turn, x, y),
    ) {
        Ok(figures) => {
            *sum = figures.sum;
            *used = figures.length as usize;
            done()
        }
        Err(refusal) => refused(refusal),
    }
}

// The check of a layout.
#[unsafe(no_mangle)]
pub extern "C" fn sigbrol_check(
    rows: usize,
    columns: usize,
    count: usize,
    gap: usize,
    table: &[PieceEntry],
    pixels: &[u8],
    layout: &[PlaceEntry],
) -> Reply
    ensures answer { result ≡ reply_to (check_call (lent_as rows columns count gap table.now pixels.now) layout.now) }
{
    match layout_sum_calls::check(size_of(rows, columns, count, gap), table, pixels, layout) {
        Ok(()) => done(),
        Err(refusal) => refused(refusal),
    }
}

// The start layout, with the locked placements of the layout buffer.
#[unsafe(no_mangle)]
pub extern "C" fn sigbrol_start(
    rows: usize,
    columns: usize,
    count: usize,
    gap: usize,
    table: &[PieceEntry],
    pixels: &[u8],
    layout: &mut [PlaceEntry],
) -> Reply
    ensures answer { result ≡ reply_to (start_call (lent_as rows columns count gap table.now pixels.now) layout.old) }
    ensures memory { layout.new ≡ layout_after layout.old (start_call (lent_as rows columns count gap table.now pixels.now) layout.old) }
    ensures layout { result.number ≡ 0 → StartClaims (job_of (lent_as rows columns count gap table.now pixels.now)) (layout_of layout.old) (layout_of layout.new) }
{
    match layout_start_calls::start(size_of(rows, columns, count, gap), table, pixels, layout) {
        Ok(()) => done(),
        Err(refusal) => refused(refusal),
    }
}

// Pushes the free pieces of a layout that passes the check left and down.
#[unsafe(no_mangle)]
pub extern "C" fn sigbrol_compact(
    rows: usize,
    columns: usize,
    count: usize,
    gap: usize,
    table: &[PieceEntry],
    pixels: &[u8],
    layout: &mut [PlaceEntry],
    slid: &mut u64,
) -> Reply
    ensures answer { result ≡ reply_to (compact_call (lent_as rows columns count gap table.now pixels.now) layout.old) }
    ensures memory { layout.new ≡ compact_after layout.old (compact_call (lent_as rows columns count gap table.now pixels.now) layout.old) }
    ensures slid { slid.new ≡ leaving (λ a. a.slid) slid.old (compact_call (lent_as rows columns count gap table.now pixels.now) layout.old) }
    ensures claims { result.number ≡ 0 → CompactedClaims (lent_as rows columns count gap table.now pixels.now) layout.old layout.new slid.new }
{
    match layout_compact_calls::compact(size_of(rows, columns, count, gap), table, pixels, layout) {
        Ok(total) => {
            *slid = total;
            done()
        }
        Err(refusal) => refused(refusal),
    }
}
