// Reading a sheet.
ghost use Rattle.std.specs.Prelude.{◌<◌, ◌≤◌, length, IfOk};
ghost use Rattle.std.specs.Io.KnownBytes.{Consumes, IsAtEnd};
ghost use Rattle.job.specs.Sheet.{sheet_bytes};

use console::read_input;
use std::io;
use std::io::Read;

// Into room for the longest sheet and a byte more, so that a longer one is seen to be one.
pub(crate) fn read_sheet<'a, R: Read>(reader: &mut R, buf: &'a mut [u8]) -> io::Result<&'a [u8]>
    requires { sheet_bytes < length buf.old }
    ensures within { IfOk result (λ sheet. length sheet.now ≤ length buf.old) }
    ensures bytes { IfOk result (λ sheet. Consumes (R.remaining reader.old) (R.remaining reader.new) sheet.now) }
    ensures all { IfOk result (λ sheet. length sheet.now < length buf.old → IsAtEnd (R.remaining reader.new)) }
{
    read_input(reader, buf)
}
