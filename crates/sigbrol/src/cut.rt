// The cut list: all lines of a layout, and single steps in millimetres.
ghost use Rattle.std.specs.Prelude.{◌≡◌, List, map, ℕ, length, take};
ghost use Rattle.model.specs.Lent.{Lent, job_of};
ghost use Rattle.model.specs.Buffer.{layout_of};
ghost use Rattle.model.specs.Refusal.{given};
ghost use Rattle.model.specs.Cut.{CutLine, cut_lines, entry_line};
ghost use Rattle.model.specs.Calls.{leaving, cut_lines_call, lines_after, cut_step_call, line_step_call};
ghost use Rattle.cut_laws.specs.Exact.{StepExact};
ghost use Rattle.call_laws.specs.Cuts.{CutListClaims};
ghost use Rattle.c_interface.specs.Numbers.{lent_as};
ghost use Rattle.c_interface.specs.Replies.{reply_to};
ghost use Rattle.c_results.specs.Steps.{step_word, step_x, step_y, told_step};

use c_interface::{Reply, done, refused, size_of};
use c_results::put_step;
use model::{LineEntry, PieceEntry, PlaceEntry};

// All lines to cut of a layout.
#[unsafe(no_mangle)]
pub extern "C" fn sigbrol_cut_lines(
    rows: usize,
    columns: usize,
    count: usize,
    gap: usize,
    table: &[PieceEntry],
    pixels: &[u8],
    layout: &[PlaceEntry],
    lines: &mut [LineEntry],
    lines_count: &mut usize,
) -> Reply
    ensures answer { result ≡ reply_to (cut_lines_call (lent_as rows columns count gap table.now pixels.now) layout.now (length lines.old)) }
    ensures memory { lines.new ≡ lines_after lines.old (cut_lines_call (lent_as rows columns count gap table.now pixels.now) layout.now (length lines.old)) }
    ensures count { lines_count.new ≡ leaving (λ a. length a) lines_count.old (cut_lines_call (lent_as rows columns count gap table.now pixels.now) layout.now (length lines.old)) }
    ensures claims { result.number ≡ 0 → CutListClaims (lent_as rows columns count gap table.now pixels.now) layout.now }
{
    match cut_line_calls::cut_lines(
        size_of(rows, columns, count, gap),
        table,
        pixels,
        layout,
        lines,
    ) {
        Ok(length) => {
            *lines_count = length as usize;
            done()
        }
        Err(refusal) => refused(refusal),
    }
}

// A step of the cut list of a layout.
#[unsafe(no_mangle)]
pub extern "C" fn sigbrol_cut_step(
    rows: usize,
    columns: usize,
    count: usize,
    gap: usize,
    table: &[PieceEntry],
    pixels: &[u8],
    layout: &[PlaceEntry],
    pitch: u32,
    step: u64,
    word: &mut u8,
    x: &mut f64,
    y: &mut f64,
) -> Reply
    ensures answer { result ≡ reply_to (cut_step_call (lent_as rows columns count gap table.now pixels.now) layout.now pitch step) }
    ensures word { word.new ≡ leaving step_word word.old (cut_step_call (lent_as rows columns count gap table.now pixels.now) layout.now pitch step) }
    ensures x { x.new ≡ leaving (step_x x.old) x.old (cut_step_call (lent_as rows columns count gap table.now pixels.now) layout.now pitch step) }
    ensures y { y.new ≡ leaving (step_y y.old) y.old (cut_step_call (lent_as rows columns count gap table.now pixels.now) layout.now pitch step) }
    ensures claims { result.number ≡ 0 → CutListClaims (lent_as rows columns count gap table.now pixels.now) layout.now × StepExact (cut_lines (job_of (lent_as rows columns count gap table.now pixels.now)) (layout_of layout.now)) pitch step (told_step word.new x.new y.new) }
{
    match cut_step_calls::cut_step(
        size_of(rows, columns, count, gap),
        table,
        pixels,
        layout,
        pitch,
        step,
    ) {
        Ok(taken) => {
            put_step(taken, word, x, y);
            done()
        }
        Err(refusal) => refused(refusal),
    }
}

// A step of lines that are lent; of the lines that `sigbrol_cut_lines` stored it is the layout's step.
#[unsafe(no_mangle)]
pub extern "C" fn sigbrol_line_step(
    lines: &[LineEntry],
    pitch: u32,
    step: u64,
    word: &mut u8,
    x: &mut f64,
    y: &mut f64,
) -> Reply
    ensures answer { result ≡ reply_to (line_step_call lines.now pitch step) }
    ensures word { word.new ≡ leaving step_word word.old (line_step_call lines.now pitch step) }
    ensures x { x.new ≡ leaving (step_x x.old) x.old (line_step_call lines.now pitch step) }
    ensures y { y.new ≡ leaving (step_y y.old) y.old (line_step_call lines.now pitch step) }
    ensures same { (l : Lent) (layout before : List (List ℕ)) (ls : List CutLine) → cut_lines_call l layout (length before) ≡ given ls → lines.now ≡ take (length ls) (lines_after before (cut_lines_call l layout (length before))) → line_step_call lines.now pitch step ≡ cut_step_call l layout pitch step }
    ensures exact { result.number ≡ 0 → StepExact (map entry_line lines.now) pitch step (told_step word.new x.new y.new) }
{
    match cut_step_calls::line_step(lines, pitch, step) {
        Ok(taken) => {
            put_step(taken, word, x, y);
            done()
        }
        Err(refusal) => refused(refusal),
    }
}
