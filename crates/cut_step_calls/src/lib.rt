// The steps of a cut list, one by one, in millimetres: from a layout, or from a list of its lines. Document 02, point 2.
#![tactic(auto)]

ghost use Rattle.std.specs.Prelude.{◌≡◌, not, List, map, ℕ, ◌≤◌, length, take};
ghost use Rattle.model.specs.Lent.{Lent, lent_by, job_of, up_to};
ghost use Rattle.model.specs.Buffer.{layout_of};
ghost use Rattle.model.specs.Refusal.{given};
ghost use Rattle.model.specs.Cut.{CutLine, cut_lines, pitch_bound, entry_line};
ghost use Rattle.model.specs.Calls.{layout_causes, cut_lines_call, lines_after, cut_step_call, line_step_call};
ghost use Rattle.model.specs.declared.CutStep.{CutStep};
ghost use Rattle.text_laws.specs.Outcomes.{NoCause};
ghost use Rattle.cut_laws.specs.Exact.{StepExact};
ghost use Rattle.call_laws.specs.Cuts.{most_lines, CutListClaims};
ghost use Rattle.cut_step_calls.specs.Answers.{step_answer, shared_step};

use causes::{Wrong, call_causes};
use cut_line_calls::cut_lines;
use cut_steps::step_of;
use model::{
    CutStep, JobSize, LineEntry, PITCH_BOUND, PieceEntry, PlaceEntry, Refusal, plain_refusal,
};

// No layout has more lines.
const MOST_LINES: usize = 70145;

// Cause 2 of a pitch: it is none of 1 to 4,096.
fn pitch_wrong(pitch: u32) -> bool
    ensures { result ≡ not (up_to pitch_bound pitch) }
{
    let zero = pitch == 0;
    if zero {
        return true;
    }
    PITCH_BOUND < pitch
}

// A buffer with room for the lines of every layout. What it holds plays no part, so that no caller's proof computes with it.
fn room_for_lines() -> [LineEntry; MOST_LINES]
    ensures { length result ≡ most_lines }
{
    [[0u16; 4]; MOST_LINES]
}

// A step of a layout of which all is checked but conflicts: refusal 12 with the pair, or the step. `lines` is room for the lines.
fn listed_step(
    size: JobSize,
    table: &[PieceEntry],
    pixels: &[u8],
    layout: &[PlaceEntry],
    pitch: u32,
    step: u64,
    lines: &mut [LineEntry],
) -> Result<CutStep, Refusal>
    requires { NoCause (layout_causes (lent_by size table.now pixels.now) layout.now) × (most_lines ≤ length lines.old) }
    ensures { result ≡ step_answer (shared_step (lent_by size table.now pixels.now) layout.now pitch step) }
{
    let count = cut_lines(size, table, pixels, layout, lines)?;
    let n = count as usize;
    Ok(step_of(&lines[..n], pitch, step))
}

// Step number `step` of the cut list of a layout that passes the check, in millimetres, or a refusal.
pub fn cut_step(
    size: JobSize,
    table: &[PieceEntry],
    pixels: &[u8],
    layout: &[PlaceEntry],
    pitch: u32,
    step: u64,
) -> Result<CutStep, Refusal>
    ensures answer { result ≡ step_answer (cut_step_call (lent_by size table.now pixels.now) layout.now pitch step) }
    ensures claims { (t : CutStep) → result ≡ Ok t → CutListClaims (lent_by size table.now pixels.now) layout.now × StepExact (cut_lines (job_of (lent_by size table.now pixels.now)) (layout_of layout.now)) pitch step t }
{
    let wrong = Wrong {
        length: false,
        number: pitch_wrong(pitch),
        piece: false,
    };
    call_causes(size, table, pixels, layout, wrong)?;
    let mut lines = room_for_lines();
    listed_step(size, table, pixels, layout, pitch, step, &mut lines)
}

// Step number `step` of a list of lines, in millimetres, or a refusal: of the lines that `cut_lines` stored, the answer is that of `cut_step`.
pub fn line_step(lines: &[LineEntry], pitch: u32, step: u64) -> Result<CutStep, Refusal>
    ensures answer { result ≡ step_answer (line_step_call lines.now pitch step) }
    ensures same { (l : Lent) (layout before : List (List ℕ)) (ls : List CutLine) → cut_lines_call l layout (length before) ≡ given ls → lines.now ≡ take (length ls) (lines_after before (cut_lines_call l layout (length before))) → result ≡ step_answer (cut_step_call l layout pitch step) }
    ensures exact { (t : CutStep) → result ≡ Ok t → StepExact (map entry_line lines.now) pitch step t }
{
    if pitch_wrong(pitch) {
        return Err(plain_refusal(2));
    }
    Ok(step_of(lines, pitch, step))
}
