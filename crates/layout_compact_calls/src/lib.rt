// A layout that passes the check, pushed left and down. Document 02, point 7.
#![tactic(auto)]

mod drawing;

ghost use Rattle.std.specs.Prelude.{◌≡◌, ℕ};
ghost use Rattle.model.specs.Lent.{lent_by, job_of};
ghost use Rattle.model.specs.Buffer.{layout_of, entries_of};
ghost use Rattle.model.specs.Compact.{compact};
ghost use Rattle.model.specs.Calls.{compact_call, compact_after, slid_answer};
ghost use Rattle.descent_laws.specs.LentLayout.{Laid};
ghost use Rattle.call_laws.specs.Compacting.{CompactedClaims};

use drawing::draw_all;
use layout_entries::write_entries;
use layout_pushes::push_all;
use layout_strips::{empty_store, no_spans};
use layout_sum_calls::check;
use model::{Direction, JobSize, PieceEntry, PlaceEntry, Refusal};

// Pushes the pieces of a valid layout, and tells the pixels that they slid. The strips of all pieces are made once.
fn push_layout(size: JobSize, table: &[PieceEntry], pixels: &[u8], layout: &mut [PlaceEntry]) -> u64
    requires { Laid (lent_by size table.now pixels.now) layout.old }
    ensures slid { result ≡ (compact (job_of (lent_by size table.now pixels.now)) (layout_of layout.old)).slid }
    ensures layout { layout.new ≡ entries_of (compact (job_of (lent_by size table.now pixels.now)) (layout_of layout.old)).layout }
{
    write_entries(layout);
    let mut rows = empty_store();
    let mut row_spans = no_spans();
    draw_all(
        table,
        pixels,
        layout,
        Direction::Horizontal,
        &mut rows,
        &mut row_spans,
    );
    let mut columns = empty_store();
    let mut column_spans = no_spans();
    draw_all(
        table,
        pixels,
        layout,
        Direction::Vertical,
        &mut columns,
        &mut column_spans,
    );
    push_all(
        size,
        table,
        pixels,
        layout,
        &rows,
        &row_spans,
        &columns,
        &column_spans,
    ) as u64
}

// Pushes the free pieces of a layout that passes the check left and down until none can slide further. The layout buffer holds the layout that they
// slid to, and the answer tells the pixels; or a refusal, which writes nothing: 8, 7, 9, 10, 12 with the pair.
#[tactic(auto, using(crate::proofs::Outcomes::refused_answer, crate::proofs::Outcomes::refused_buffer, crate::proofs::Outcomes::passed_laid, crate::proofs::Outcomes::passed_answer, crate::proofs::Outcomes::passed_buffer, crate::proofs::Outcomes::passed_claims))]
pub fn compact(
    size: JobSize,
    table: &[PieceEntry],
    pixels: &[u8],
    layout: &mut [PlaceEntry],
) -> Result<u64, Refusal>
    ensures answer { result ≡ slid_answer (compact_call (lent_by size table.now pixels.now) layout.old) }
    ensures memory { layout.new ≡ compact_after layout.old (compact_call (lent_by size table.now pixels.now) layout.old) }
    ensures claims { (n : ℕ) → result ≡ Ok n → CompactedClaims (lent_by size table.now pixels.now) layout.old layout.new n }
{
    check(size, table, pixels, layout)?;
    Ok(push_layout(size, table, pixels, layout))
}
