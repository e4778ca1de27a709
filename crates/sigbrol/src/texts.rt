// A layout as text, and the program from text to text.
ghost use Rattle.std.specs.Prelude.{◌≡◌, ◌≤◌, length};
ghost use Rattle.model.specs.Calls.{leaving, layout_after, text_after, write_layout_call, read_layout_call};
ghost use Rattle.model.specs.Program.{program_text, program_call};
ghost use Rattle.call_laws.specs.Workspaces.{LeftFree};
ghost use Rattle.program_text.specs.Output.{output_bound};
ghost use Rattle.c_interface.specs.Numbers.{lent_as};
ghost use Rattle.c_interface.specs.Replies.{reply_to};

use c_interface::{Reply, done, refused, size_of};
use model::{PieceEntry, PlaceEntry};

// Writes a layout as text, and how many bytes it has.
#[unsafe(no_mangle)]
pub extern "C" fn sigbrol_write_layout(
    rows: usize,
    columns: usize,
    count: usize,
    gap: usize,
    table: &[PieceEntry],
    pixels: &[u8],
    layout: &[PlaceEntry],
    text: &mut [u8],
    written: &mut usize,
) -> Reply
    ensures answer { result ≡ reply_to (write_layout_call (lent_as rows columns count gap table.now pixels.now) layout.now (length text.old)) }
    ensures memory { text.new ≡ text_after text.old (write_layout_call (lent_as rows columns count gap table.now pixels.now) layout.now (length text.old)) }
    ensures written { written.new ≡ leaving (λ a. length a) written.old (write_layout_call (lent_as rows columns count gap table.now pixels.now) layout.now (length text.old)) }
{
    match layout_write_calls::write_layout(
        size_of(rows, columns, count, gap),
        table,
        pixels,
        layout,
        text,
    ) {
        Ok(length) => {
            *written = length as usize;
            done()
        }
        Err(refusal) => refused(refusal),
    }
}

// Reads a layout from its text.
#[unsafe(no_mangle)]
pub extern "C" fn sigbrol_read_layout(
    rows: usize,
    columns: usize,
    count: usize,
    gap: usize,
    table: &[PieceEntry],
    pixels: &[u8],
    text: &[u8],
    layout: &mut [PlaceEntry],
) -> Reply
    ensures answer { result ≡ reply_to (read_layout_call (lent_as rows columns count gap table.now pixels.now) text.now (length layout.old)) }
    ensures memory { layout.new ≡ layout_after layout.old (read_layout_call (lent_as rows columns count gap table.now pixels.now) text.now (length layout.old)) }
{
    match layout_read_calls::read_layout(
        size_of(rows, columns, count, gap),
        table,
        pixels,
        text,
        layout,
    ) {
        Ok(()) => done(),
        Err(refusal) => refused(refusal),
    }
}

// What the program prints for an input, and how many bytes it has: at most 4,096.
#[unsafe(no_mangle)]
pub extern "C" fn sigbrol_program(
    input: &[u8],
    output: &mut [u8],
    workspace: &mut [u64],
    written: &mut usize,
) -> Reply
    ensures answer { result ≡ reply_to (program_call input.now (length output.old)) }
    ensures memory { output.new ≡ text_after output.old (program_call input.now (length output.old)) }
    ensures workspace { LeftFree (program_call input.now (length output.old)) workspace.old workspace.new }
    ensures written { written.new ≡ leaving (λ a. length a) written.old (program_call input.now (length output.old)) }
    ensures fits { length (program_text input.now) ≤ output_bound }
{
    match program_calls::print_run(input, output, workspace) {
        Ok(count) => {
            *written = count as usize;
            done()
        }
        Err(refusal) => refused(refusal),
    }
}
