// Writing. What is handed on is asked for by a contract: it is the sheet meant, or the words.
ghost use Rattle.std.specs.Prelude.{◌≡◌};
ghost use Rattle.real.specs.Refusal.{number_of};
ghost use Rattle.real.specs.Reply.{refused, given};
ghost use Rattle.dxf.specs.Outline.{outline_of};
ghost use Rattle.job.specs.Lines.{refused_line};
ghost use Rattle.dxf_sheet.specs.Drawing.{drawing_sheet};

use dxf::{OUTLINE_NUMBERS, dxf_outline};
use job::{PART_BYTES, refused_sheet};
use outline_sheet::{OUTLINE_SHEET_BYTES, outline_sheet};
use real::Refusal;
use std::io;
use std::io::Write;

// Hands on the sheet of a drawing.
fn hand_sheet<W: Write>(out: &mut W, drawing: &[u8], sheet: &[u8]) -> io::Result<()>
    requires { drawing_sheet drawing.now ≡ given sheet.now }
{
    out.write_all(sheet)
}

// Hands on the words of a refusal.
fn hand_words<E: Write>(said: &mut E, refusal: Refusal, words: &[u8]) -> io::Result<()>
    requires { words.now ≡ refused_line (number_of refusal) }
{
    said.write_all(words)
}

// Says that a drawing is refused, and with which number. Not inlined, so that a drawing that is not refused takes no stack for the text.
#[inline(never)]
fn refuse<E: Write>(said: &mut E, drawing: &[u8], refusal: Refusal) -> io::Result<()>
    requires { drawing_sheet drawing.now ≡ refused (number_of refusal) }
{
    let mut text = [0u8; PART_BYTES];
    let n = refused_sheet(u8::from(refusal), &mut text);
    hand_words(said, refusal, &text[..n])
}

// Writes the sheet of a drawing's outline, which no sheet refuses.
fn write_outline<W: Write>(
    out: &mut W,
    drawing: &[u8],
    outline: &[f64],
    closed: bool,
) -> io::Result<()>
    requires { outline_of drawing.now ≡ given (record { numbers = outline.now; closed = closed }) }
{
    let mut sheet = [0u8; OUTLINE_SHEET_BYTES];
    let n = outline_sheet(outline, closed, &mut sheet).unwrap();
    hand_sheet(out, drawing, &sheet[..n])
}

// Writes the sheet of a drawing, or says its refusal.
pub(crate) fn write_drawing<W: Write, E: Write>(
    out: &mut W,
    said: &mut E,
    drawing: &[u8],
) -> io::Result<()> {
    let mut numbers = [0.0f64; OUTLINE_NUMBERS];
    match dxf_outline(drawing, &mut numbers) {
        Err(refusal) => refuse(said, drawing, refusal),
        Ok(outline) => {
            let n = 3 * outline.vertices;
            write_outline(out, drawing, &numbers[..n], outline.closed)
        }
    }
}
