// Writing. What is handed on to the output is asked for by a contract: it is the text meant.
ghost use Rattle.std.specs.Prelude.{◌≡◌};
ghost use Rattle.real.specs.Refusal.{number_of};
ghost use Rattle.job.specs.Rows.{joined};
ghost use Rattle.job.specs.Lines.{refused_line};
ghost use Rattle.job.specs.Parts.{part_text, sheet_text};

use job::{LIST_NUMBERS, OUTLINE_NUMBERS, PART_BYTES, open_sheet, refused_sheet, sheet_part};
use real::Refusal;
use std::io;
use std::io::Write;

// Hands on part k of a sheet.
fn hand_part<W: Write>(
    out: &mut W,
    bytes: &[u8],
    outline: &[f64],
    k: usize,
    text: &[u8],
) -> io::Result<()>
    requires { text.now ≡ part_text bytes.now outline.now k }
{
    out.write_all(text)
}

// Hands on all that a sheet prints.
fn hand_whole<W: Write>(out: &mut W, bytes: &[u8], text: &[u8]) -> io::Result<()>
    requires { text.now ≡ sheet_text bytes.now }
{
    out.write_all(text)
}

// Writes the parts, in order: joined, they are all that the sheet prints.
fn write_parts<W: Write>(
    out: &mut W,
    bytes: &[u8],
    outline: &[f64],
    parts: usize,
    text: &mut [u8; PART_BYTES],
) -> io::Result<()>
    requires { joined (part_text bytes.now outline.now) parts ≡ sheet_text bytes.now }
{
    let mut list = [0.0; LIST_NUMBERS];
    for k in 0..parts {
        let n = sheet_part(bytes, outline, k, &mut list, text);
        hand_part(out, bytes, outline, k, &text[..n])?;
    }
    Ok(())
}

// Writes what a refused sheet prints.
fn write_refused<W: Write>(
    out: &mut W,
    bytes: &[u8],
    refusal: Refusal,
    text: &mut [u8; PART_BYTES],
) -> io::Result<()>
    requires { refused_line (number_of refusal) ≡ sheet_text bytes.now }
{
    let n = refused_sheet(u8::from(refusal), text);
    hand_whole(out, bytes, &text[..n])
}

// Writes all that the sheet prints.
pub(crate) fn write_sheet<W: Write>(out: &mut W, bytes: &[u8]) -> io::Result<()> {
    let mut text = [0; PART_BYTES];
    let mut outline = [0.0; OUTLINE_NUMBERS];
    match open_sheet(bytes, &mut outline) {
        Err(refusal) => write_refused(out, bytes, refusal, &mut text),
        Ok(opened) => write_parts(
            out,
            bytes,
            &outline[..opened.numbers],
            opened.parts,
            &mut text,
        ),
    }
}
