// Reading a drawing.
ghost use Rattle.std.specs.Prelude.{◌<◌, ◌≤◌, length, IfOk};
ghost use Rattle.std.specs.Io.KnownBytes.{Consumes, IsAtEnd};
ghost use Rattle.dxf_sheet.specs.Drawing.{drawing_bytes};

use console::read_input;
use std::io;
use std::io::Read;

// The longest drawing that is read, in bytes.
pub(crate) const DRAWING_BYTES: usize = 4194304;

// Into room for the longest drawing and a byte more, so that a longer one is seen to be one.
pub(crate) fn read_drawing<'a, R: Read>(reader: &mut R, buf: &'a mut [u8]) -> io::Result<&'a [u8]>
    requires { drawing_bytes < length buf.old }
    ensures within { IfOk result (λ drawing. length drawing.now ≤ length buf.old) }
    ensures bytes { IfOk result (λ drawing. Consumes (R.remaining reader.old) (R.remaining reader.new) drawing.now) }
    ensures all { IfOk result (λ drawing. length drawing.now < length buf.old → IsAtEnd (R.remaining reader.new)) }
{
    read_input(reader, buf)
}
