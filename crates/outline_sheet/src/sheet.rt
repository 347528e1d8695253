// A sheet as a whole.
ghost use Rattle.std.specs.Prelude.{◌≡◌, ◌/◌, ◌≤◌, length};
ghost use Rattle.real.specs.Reply.{reply};
ghost use Rattle.plane.specs.Range.{most_vertices};
ghost use Rattle.text.specs.Wrote.{Piece};
ghost use Rattle.outline_sheet.specs.Sheet as spec;

use crate::header::header;
use crate::numbers::put_numbers;
use job::{HEADER_BYTES, VERTEX_BYTES};
use plane::{MOST_VERTICES, outline_is_whole};
use real::Refusal;
use text::put_text;
use view::vertices_in_range;

// The bytes of the longest.
pub const OUTLINE_SHEET_BYTES: usize = HEADER_BYTES + VERTEX_BYTES * MOST_VERTICES;

fn put_sheet(out: &mut [u8], outline: &[f64], closed: bool) -> usize
    requires { length outline.now / 3 ≤ most_vertices }
    ensures { Piece out.old 0 (spec.sheet_bytes outline.now closed) out.new result }
{
    let e = put_text(out, 0, &header(outline.len() / 3, closed));
    put_numbers(out, e, outline)
}

// Writes the sheet from the buffer's start, and answers how many bytes it has. 3, 1, 8.
pub fn outline_sheet(outline: &[f64], closed: bool, out: &mut [u8]) -> Result<usize, Refusal>
    ensures { (reply result ≡ spec.sheet_to outline.now (length out.old)) × (out.new ≡ spec.sheet_buffer outline.now closed out.old) }
{
    if !outline_is_whole(outline) {
        return Err(Refusal::BadOutline);
    }
    if !vertices_in_range(outline) {
        return Err(Refusal::BadNumber);
    }
    if HEADER_BYTES + 8 * outline.len() > out.len() {
        return Err(Refusal::NoRoom);
    }
    Ok(put_sheet(out, outline, closed))
}
