// Reading standard input.
ghost use Rattle.std.specs.Prelude.{◌<◌, ◌≤◌, length, IfOk};
ghost use Rattle.std.specs.Io.KnownBytes.{Consumes, IsAtEnd};

use std::io;
use std::io::Read;

// Reads until the buffer is full or the input ends, and gives what was read.
pub fn read_input<'a, R: Read>(reader: &mut R, buf: &'a mut [u8]) -> io::Result<&'a [u8]>
    ensures within { IfOk result (λ read. length read.now ≤ length buf.old) }
    ensures bytes { IfOk result (λ read. Consumes (R.remaining reader.old) (R.remaining reader.new) read.now) }
    ensures all { IfOk result (λ read. length read.now < length buf.old → IsAtEnd (R.remaining reader.new)) }
{
    let mut done = 0;
    while done < buf.len() {
        let n = reader.read(&mut buf[done..])?;
        if n == 0 {
            break;
        }
        done += n;
    }
    Ok(&buf[..done])
}
