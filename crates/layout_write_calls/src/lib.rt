// The writer of a layout text, `layout,1,W,L,n` and for each piece `at,i,turn,x,y`: document 01, 'Start, layout text, sheet' and 'When a
// call says no'.
#![tactic(auto)]

ghost use Rattle.std.specs.Prelude.{◌≡◌, List, [], ◌∷◌, ◌++◌, ℕ, ◌<◌, ◌≤◌, length};
ghost use Rattle.std.proofs.lemmas.List.Edits.{sets};
ghost use Rattle.model.specs.Answers.{count_answer};
ghost use Rattle.model.specs.Lent.{lent_by, job_of, row_bound, column_bound, piece_bound};
ghost use Rattle.model.specs.Buffer.{layout_of};
ghost use Rattle.model.specs.Text.{digits, line_text, three_fields};
ghost use Rattle.model.specs.Layout.{place_of};
ghost use Rattle.model.specs.LayoutText.{layout_word, placement_text, layout_text};
ghost use Rattle.model.specs.Calls.{write_layout_call, text_after};
ghost use Rattle.layout_write_calls.specs.Written.{Written};

use causes::layout_causes;
use model::{JobSize, PieceEntry, PlaceEntry, Refusal, plain_refusal};
use text_fields::{put_byte, put_number, put_word};

// A number with the byte that ends it, and the position after it.
fn put_field(text: &mut [u8], at: usize, k: u32, end: u8) -> usize
    requires { at ≤ 65536 }
    ensures { Written text.old at (digits k ++ (end ∷ [])) 6 result text.new }
{
    let next = put_number(text, at, k);
    put_byte(text, next, end)
}

// The last three fields of a line, and the position after them.
fn put_three(text: &mut [u8], at: usize, first: u32, second: u32, third: u32) -> usize
    requires { at ≤ 65500 }
    ensures { Written text.old at (line_text [] three_fields (first ∷ second ∷ third ∷ [])) 18 result text.new }
{
    let after_first = put_field(text, at, first, b',');
    let after_second = put_field(text, after_first, second, b',');
    put_field(text, after_second, third, b'\n')
}

// The layout line, and the position after it.
fn put_layout_line(size: JobSize, text: &mut [u8]) -> usize
    requires { (size.rows ≤ row_bound) × (size.columns ≤ column_bound) × (size.count ≤ piece_bound) }
    ensures { Written text.old 0 (line_text layout_word three_fields (size.rows ∷ size.columns ∷ size.count ∷ [])) 27 result text.new }
{
    let next = put_word(text, 0, b"layout,1,");
    put_three(
        text,
        next,
        size.rows as u32,
        size.columns as u32,
        size.count as u32,
    )
}

// The line of piece i at a position, and the position after it.
fn put_placement(layout: &[PlaceEntry], i: usize, text: &mut [u8], at: usize) -> usize
    requires { (i < length layout.now) × (i < piece_bound) × (at ≤ 65400) }
    ensures { Written text.old at (placement_text i (place_of (layout_of layout.now) i)) 27 result text.new }
{
    let entry = layout_places::entry_of(layout_places::place_at(layout, i));
    let after_word = put_word(text, at, b"at,");
    let next = put_field(text, after_word, i as u32, b',');
    put_three(
        text,
        next,
        entry[0] as u32,
        entry[1] as u32,
        entry[2] as u32,
    )
}

// The text of a layout, and its length. What the buffer has no room for is left out.
fn put_layout(size: JobSize, layout: &[PlaceEntry], text: &mut [u8]) -> usize
    requires { (size.rows ≤ row_bound) × (size.columns ≤ column_bound) × (size.count ≤ piece_bound) × (length layout.now ≡ size.count) }
    ensures { (table : List (List ℕ)) (pixels : List ℕ) → (result ≡ length (layout_text (job_of (lent_by size table pixels)) (layout_of layout.now))) × (text.new ≡ sets text.old 0 (layout_text (job_of (lent_by size table pixels)) (layout_of layout.now))) }
{
    let mut at = put_layout_line(size, text);
    for i in 0..size.count {
        at = put_placement(layout, i, text, at);
    }
    at
}

// Writes a layout to the front of a text buffer, or refuses.
pub fn write_layout(
    size: JobSize,
    table: &[PieceEntry],
    pixels: &[u8],
    layout: &[PlaceEntry],
    text: &mut [u8],
) -> Result<u64, Refusal>
    ensures answer { result ≡ count_answer (write_layout_call (lent_by size table.now pixels.now) layout.now (length text.old)) }
    ensures memory { text.new ≡ text_after text.old (write_layout_call (lent_by size table.now pixels.now) layout.now (length text.old)) }
{
    layout_causes(size, table, pixels, layout)?;
    let needed = put_layout(size, layout, &mut text[..0]);
    let short = text.len() < needed;
    if short {
        return Err(plain_refusal(7));
    }
    put_layout(size, layout, text);
    Ok(needed as u64)
}
