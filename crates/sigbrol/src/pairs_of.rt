// Two pieces of a layout.
ghost use Rattle.std.specs.Prelude.{◌≡◌};
ghost use Rattle.model.specs.Bounded.{one_if};
ghost use Rattle.model.specs.Calls.{leaving, share_call, depth_call, penalty_call};
ghost use Rattle.model.specs.Buffer.{direction_of};
ghost use Rattle.c_interface.specs.Numbers.{lent_as};
ghost use Rattle.c_interface.specs.Replies.{reply_to};

use c_interface::{Reply, direction_of, done, refused, size_of};
use c_results::bit_of;
use model::{PieceEntry, PlaceEntry};

// Whether two pieces of a layout conflict, which with a gap of 0 is to share a pixel: 1 or 0.
#[unsafe(no_mangle)]
pub extern "C" fn sigbrol_shares_pixel(
    rows: usize,
    columns: usize,
    count: usize,
    gap: usize,
    table: &[PieceEntry],
    pixels: &[u8],
    layout: &[PlaceEntry],
    i: usize,
    k: usize,
    shares: &mut u8,
) -> Reply
    ensures answer { result ≡ reply_to (share_call (lent_as rows columns count gap table.now pixels.now) layout.now i k) }
    ensures shares { shares.new ≡ leaving (λ a. one_if a) shares.old (share_call (lent_as rows columns count gap table.now pixels.now) layout.now i k) }
{
    match pair_calls::shares_pixel(
        size_of(rows, columns, count, gap),
        table,
        pixels,
        layout,
        i,
        k,
    ) {
        Ok(yes) => {
            *shares = bit_of(yes);
            done()
        }
        Err(refusal) => refused(refusal),
    }
}

// The depth of two pieces of a layout along the rows, or along the columns if vertical.
#[unsafe(no_mangle)]
pub extern "C" fn sigbrol_depth(
    rows: usize,
    columns: usize,
    count: usize,
    gap: usize,
    table: &[PieceEntry],
    pixels: &[u8],
    layout: &[PlaceEntry],
    i: usize,
    k: usize,
    vertical: u8,
    depth: &mut u32,
) -> Reply
    ensures answer { result ≡ reply_to (depth_call (direction_of vertical) (lent_as rows columns count gap table.now pixels.now) layout.now i k) }
    ensures depth { depth.new ≡ leaving (λ a. a) depth.old (depth_call (direction_of vertical) (lent_as rows columns count gap table.now pixels.now) layout.now i k) }
{
    let size = size_of(rows, columns, count, gap);
    match pair_calls::depth(size, table, pixels, layout, i, k, direction_of(vertical)) {
        Ok(amount) => {
            *depth = amount as u32;
            done()
        }
        Err(refusal) => refused(refusal),
    }
}

// The penalty of two pieces of a layout.
#[unsafe(no_mangle)]
pub extern "C" fn sigbrol_penalty(
    rows: usize,
    columns: usize,
    count: usize,
    gap: usize,
    table: &[PieceEntry],
    pixels: &[u8],
    layout: &[PlaceEntry],
    i: usize,
    k: usize,
    penalty: &mut u32,
) -> Reply
    ensures answer { result ≡ reply_to (penalty_call (lent_as rows columns count gap table.now pixels.now) layout.now i k) }
    ensures penalty { penalty.new ≡ leaving (λ a. a) penalty.old (penalty_call (lent_as rows columns count gap table.now pixels.now) layout.now i k) }
{
    match pair_calls::penalty(
        size_of(rows, columns, count, gap),
        table,
        pixels,
        layout,
        i,
        k,
    ) {
        Ok(amount) => {
            *penalty = amount as u32;
            done()
        }
        Err(refusal) => refused(refusal),
    }
}
