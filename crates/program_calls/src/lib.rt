// The program, from the bytes of its input to the bytes of its output. Document 01, 'Start, layout text, sheet': it reads a job, takes the
// start layout, makes a guided run by weights 1 and prints the best layout and how the run ended, or the refusal. Document 02, point 6: locked
// pieces lie where the start of all pieces puts them.
#![tactic(auto)]

ghost use Rattle.std.specs.Prelude.{◌≡◌, true, ◌≤◌, length};
ghost use Rattle.model.specs.Lent.{lent_by, job_of, lent_well, piece_bound, area_bound};
ghost use Rattle.model.specs.Buffer.{entries_of, layout_of};
ghost use Rattle.model.specs.Calls.{layout_causes, text_after};
ghost use Rattle.model.specs.Refusal.{given};
ghost use Rattle.model.specs.Answers.{count_answer};
ghost use Rattle.model.specs.JobText.{read_job};
ghost use Rattle.model.specs.Program.{run_text, program_run, printed, program_text, program_call};
ghost use Rattle.text_laws.specs.Outcomes.{NoCause};
ghost use Rattle.model.specs.Start.{program_start};
ghost use Rattle.call_laws.specs.Workspaces.{LeftFree};
ghost use Rattle.layout_write_calls.specs.Written.{Written};
ghost use Rattle.program_text.specs.Output.{output_bound};
ghost use Rattle.program_calls.specs.Runs.{Gives, run_with, UsedWords};

use layout_places::numbers::pair_count;
use model::{
    AREA_BOUND, JobSize, PAIR_BOUND, PIECE_BOUND, PieceEntry, PlaceEntry, Refusal, plain_refusal,
};
use program_text::{put_end_line, put_refusal_line};
use run_guided_calls::{RunTotals, guided_run};
use text_fields::put_word;

// The most bytes that an input may have.
pub const INPUT_BOUND: usize = 65536;

// The most bytes that are printed.
pub const OUTPUT_BOUND: usize = 4096;

// The rounds of the program's run.
const PROGRAM_ROUNDS: u32 = 20;

// The budget of each.
const PROGRAM_BUDGET: u32 = 1000;

// The start layout of a job: locked pieces lie where the start of all pieces puts them.
fn start_job(size: JobSize, table: &[PieceEntry], pixels: &[u8], layout: &mut [PlaceEntry])
    requires { (lent_well (lent_by size table.now pixels.now) ≡ true) × (length layout.old ≡ size.count) }
    ensures { layout.new ≡ entries_of (program_start (job_of (lent_by size table.now pixels.now))) }
{
    layout_start_calls::start_of_all(size, table, layout);
    // The start of all pieces places each inside: no start from it is refused.
    let _ = layout_start_calls::start(size, table, pixels, layout);
}

// The run of a job: from the start layout, by weights 1, 20 rounds of budget 1,000. The best layout is left in the layout buffer.
fn run_job(
    size: JobSize,
    table: &[PieceEntry],
    pixels: &[u8],
    layout: &mut [PlaceEntry],
    workspace: &mut [u64],
) -> RunTotals
    requires { (lent_well (lent_by size table.now pixels.now) ≡ true) × (length layout.old ≡ size.count) }
    ensures { Gives result layout.new (program_run (job_of (lent_by size table.now pixels.now))) }
{
    start_job(size, table, pixels, layout);
    let mut weights = [1u32; PAIR_BOUND];
    let pairs = pair_count(size.count);
    match guided_run(
        size,
        table,
        pixels,
        layout,
        &mut weights[..pairs],
        PROGRAM_ROUNDS,
        PROGRAM_BUDGET,
        workspace,
    ) {
        Ok(run) => run,
        // The start layout and weights 1 are valid: this does not happen.
        Err(_) => RunTotals {
            sum: 0,
            made: 0,
            moves: 0,
        },
    }
}

// The text of a layout and the end line of the run that gave it, at the front, and the position after them.
fn write_run(
    size: JobSize,
    table: &[PieceEntry],
    pixels: &[u8],
    layout: &[PlaceEntry],
    run: RunTotals,
    text: &mut [u8],
) -> usize
    requires fact_1 { NoCause (layout_causes (lent_by size table.now pixels.now) layout.now) }
    requires fact_2 { output_bound ≤ length text.old }
    ensures { Written text.old 0 (run_text (job_of (lent_by size table.now pixels.now)) (run_with run (layout_of layout.now))) output_bound result text.new }
{
    let Ok(used) = layout_length_calls::used_length(size, table, pixels, layout) else {
        // The layout has no cause of refusal: this does not happen.
        return 0;
    };
    let Ok(next) = layout_write_calls::write_layout(size, table, pixels, layout, text) else {
        // It has none, and the buffer has room for its text: this does not happen.
        return 0;
    };
    put_end_line(
        text,
        next as usize,
        run.sum,
        run.made,
        run.moves,
        used as usize,
    )
}

// Runs a job that was read and writes how the run went.
fn print_job(
    size: JobSize,
    table: &[PieceEntry],
    pixels: &[u8],
    text: &mut [u8],
    workspace: &mut [u64],
) -> usize
    requires { (lent_well (lent_by size table.now pixels.now) ≡ true) × (output_bound ≤ length text.old) }
    ensures { Written text.old 0 (printed (given (lent_by size table.now pixels.now))) output_bound result text.new }
{
    let mut layout = [[0u16; 3]; PIECE_BOUND];
    let count = size.count;
    let places: &mut [PlaceEntry] = &mut layout[..count];
    let run = run_job(size, table, pixels, places, workspace);
    write_run(size, table, pixels, places, run, text)
}

// Reads a job, runs it and writes how the run went, or writes the refusal. The calls are lent just the entries and bytes that were read.
fn read_and_print(input: &[u8], text: &mut [u8], workspace: &mut [u64]) -> usize
    requires { output_bound ≤ length text.old }
    ensures { Written text.old 0 (printed (read_job input.now piece_bound area_bound)) output_bound result text.new }
{
    let mut table = [[0u8; 4]; PIECE_BOUND];
    let mut pixels = [0u8; AREA_BOUND];
    match job_calls::read_job(input, &mut table, &mut pixels) {
        Err(refusal) => put_refusal_line(text, refusal),
        Ok(size) => {
            let count = size.count;
            let entries = &table[..count];
            let area = job_check::pixel_start(entries, count);
            print_job(size, entries, &pixels[..area], text, workspace)
        }
    }
}

// What the program prints for its input, at the front of a buffer that every output fits, and how many bytes that are.
fn print_text(input: &[u8], text: &mut [u8], workspace: &mut [u64]) -> usize
    requires { output_bound ≤ length text.old }
    ensures { Written text.old 0 (program_text input.now) output_bound result text.new }
{
    let long = INPUT_BOUND < input.len();
    if long {
        return put_refusal_line(text, plain_refusal(7));
    }
    read_and_print(input, text, workspace)
}

// How many words of a workspace are used: none where the output buffer may be too short, since a refusal leaves the workspace as it is.
fn words_used(room: usize, words: usize) -> usize
    ensures { UsedWords room words result }
{
    if room < OUTPUT_BOUND {
        return 0;
    }
    words
}

// What the program prints for its input, written to the front of an output buffer, and how many bytes that are: at most 4,096. A buffer
// that the text does not fit is refused by 7 and left as it is. What is printed does not depend on the workspace, whose words are free after it.
pub fn print_run(input: &[u8], output: &mut [u8], workspace: &mut [u64]) -> Result<u64, Refusal>
    ensures answer { result ≡ count_answer (program_call input.now (length output.old)) }
    ensures memory { output.new ≡ text_after output.old (program_call input.now (length output.old)) }
    ensures workspace { LeftFree (program_call input.now (length output.old)) workspace.old workspace.new }
    ensures fits { length (program_text input.now) ≤ output_bound }
{
    let mut text = [0u8; OUTPUT_BOUND];
    let used = words_used(output.len(), workspace.len());
    let count = print_text(input, &mut text, &mut workspace[..used]);
    let short = output.len() < count;
    if short {
        return Err(plain_refusal(7));
    }
    put_word(output, 0, &text[..count]);
    Ok(count as u64)
}
