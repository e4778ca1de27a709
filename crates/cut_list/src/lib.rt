// All lines of a layout, from the owners of its pixels: horizontals first, then verticals. Document 02, point 2.
#![tactic(auto)]

ghost use Rattle.std.specs.Prelude.{◌≡◌, map, ◌≤◌, length};
ghost use Rattle.std.proofs.lemmas.List.Edits.{sets};
ghost use Rattle.model.specs.Answers.{count_answer};
ghost use Rattle.model.specs.Lent.{lent_by, job_of, area_bound};
ghost use Rattle.model.specs.Buffer.{layout_of};
ghost use Rattle.model.specs.Cut.{line_entry, cut_lines};
ghost use Rattle.model.specs.Calls.{lines_after};
ghost use Rattle.cut_list.specs.Owned.{grid_of, owned_lines, in_room, SmallSheet, LaidApart};

use cut_owners::paint;
use cut_scan::{Grid, put_lines};
use model::{Direction, JobSize, LineEntry, PieceEntry, PlaceEntry, Refusal, plain_refusal};

// The owners of a sheet as a direction sees them, row by row in their buffer.
fn grid_of(size: JobSize, direction: Direction) -> Grid
    ensures { result ≡ grid_of direction size }
{
    match direction {
        Direction::Horizontal => Grid {
            length: size.columns,
            lines: size.rows,
            along: 1,
            across: size.columns,
        },
        Direction::Vertical => Grid {
            length: size.rows,
            lines: size.columns,
            along: size.columns,
            across: 1,
        },
    }
}

// Stores the lines between different owners, as far as there is room, and tells how many there are.
fn list_lines(size: JobSize, owners: &[u8], lines: &mut [LineEntry]) -> usize
    requires { SmallSheet size }
    ensures count { result ≡ length (owned_lines size owners.now) }
    ensures stored { lines.new ≡ sets lines.old 0 (map line_entry (owned_lines size owners.now)) }
{
    let rows = grid_of(size, Direction::Horizontal);
    let next = put_lines(owners, rows, Direction::Horizontal, lines, 0);
    let columns = grid_of(size, Direction::Vertical);
    put_lines(owners, columns, Direction::Vertical, lines, next)
}

// The lines between different owners, or refusal 7 where the buffer is too short for them.
fn lines_of(size: JobSize, owners: &[u8], lines: &mut [LineEntry]) -> Result<u64, Refusal>
    requires { SmallSheet size }
    ensures answer { result ≡ count_answer (in_room (owned_lines size owners.now) (length lines.old)) }
    ensures memory { lines.new ≡ lines_after lines.old (in_room (owned_lines size owners.now) (length lines.old)) }
{
    let needed = list_lines(size, owners, &mut lines[..0]);
    if lines.len() < needed {
        return Err(plain_refusal(7));
    }
    list_lines(size, owners, lines);
    Ok(needed as u64)
}

// The lines of a layout in which no two pieces conflict, or refusal 7; `owners` is room for those of the sheet's pixels.
pub fn layout_lines(
    size: JobSize,
    table: &[PieceEntry],
    pixels: &[u8],
    layout: &[PlaceEntry],
    lines: &mut [LineEntry],
    owners: &mut [u8],
) -> Result<u64, Refusal>
    requires { LaidApart (lent_by size table.now pixels.now) layout.now × (area_bound ≤ length owners.old) }
    ensures answer { result ≡ count_answer (in_room (cut_lines (job_of (lent_by size table.now pixels.now)) (layout_of layout.now)) (length lines.old)) }
    ensures memory { lines.new ≡ lines_after lines.old (in_room (cut_lines (job_of (lent_by size table.now pixels.now)) (layout_of layout.now)) (length lines.old)) }
{
    let n = size.rows * size.columns;
    paint(size, table, pixels, layout, &mut owners[..n]);
    lines_of(size, &owners[..n], lines)
}
