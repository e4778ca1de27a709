// The lines of a layout's cut list, all at once. Document 02, point 2.
#![tactic(auto)]

ghost use Rattle.std.specs.Prelude.{◌≡◌, ℕ, length};
ghost use Rattle.model.specs.Answers.{count_answer};
ghost use Rattle.model.specs.Lent.{lent_by};
ghost use Rattle.model.specs.Calls.{cut_lines_call, lines_after};
ghost use Rattle.call_laws.specs.Cuts.{CutListClaims};

use cut_list::layout_lines;
use layout_sum_calls::check;
use model::{AREA_BOUND, JobSize, LineEntry, PieceEntry, PlaceEntry, Refusal};

// All lines to cut of a layout that passes the check, to the front of a line buffer, and how many there are; or a refusal.
#[tactic(auto, using(crate::proofs::Outcomes::refused_answer, crate::proofs::Outcomes::refused_lines, crate::proofs::Outcomes::passed_laid, crate::proofs::Outcomes::passed_answer, crate::proofs::Outcomes::passed_lines, crate::proofs::Outcomes::passed_claims))]
pub fn cut_lines(
    size: JobSize,
    table: &[PieceEntry],
    pixels: &[u8],
    layout: &[PlaceEntry],
    lines: &mut [LineEntry],
) -> Result<u64, Refusal>
    ensures answer { result ≡ count_answer (cut_lines_call (lent_by size table.now pixels.now) layout.now (length lines.old)) }
    ensures memory { lines.new ≡ lines_after lines.old (cut_lines_call (lent_by size table.now pixels.now) layout.now (length lines.old)) }
    ensures claims { (n : ℕ) → result ≡ Ok n → CutListClaims (lent_by size table.now pixels.now) layout.now }
{
    check(size, table, pixels, layout)?;
    let mut owners = [0u8; AREA_BOUND];
    layout_lines(size, table, pixels, layout, lines, &mut owners)
}
