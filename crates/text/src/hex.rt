// Hexadecimal digits, of a float's pattern.
ghost use Rattle.std.specs.Prelude.{◌≡◌, ◌<◌};
ghost use Rattle.text.specs.Digits as spec;
ghost use Rattle.text.specs.Wrote.{Put};

use crate::piece::{copy, has_room};
use real::bits;

// The codes of x's eight hexadecimal digits, of which one number has a byte for each, the first in the lowest. Halves, bytes and
// digits are spread in turn, all parts of a number at once: what the mask leaves is each part's first half, which moves down. Past
// 9 the sum of a digit and 6 reaches 16.
fn glyphs(x: u64) -> [u8; 8]
    requires { x < 0x1_0000_0000 }
    ensures { result ≡ spec.hex 8 x }
{
    let halves = x * 0x1_0000_0000 - x / 0x1_0000 * 0xffff_ffff_ffff;
    let bytes = halves * 0x1_0000 - (halves / 0x100 & 0xff_0000_00ff) * 0xff_ffff;
    let digits = bytes * 0x100 - (bytes / 0x10 & 0xf_000f_000f_000f) * 0xfff;
    let past_9 = (digits + 0x606_0606_0606_0606) / 0x10 & 0x101_0101_0101_0101;
    let codes = digits + 0x3030_3030_3030_3030 + past_9 * 39;
    codes.to_le_bytes()
}

// A space and a float.
pub fn put_float(out: &mut [u8], at: usize, x: f64) -> usize
    ensures { Put out.old at (spec.float x) out.new result }
{
    if !has_room(out.len(), at, 17) {
        return at;
    }
    out[at] = b' ';
    let pattern = bits(x);
    let middle = copy(out, at + 1, &glyphs(pattern / 0x1_0000_0000));
    copy(out, middle, &glyphs(pattern % 0x1_0000_0000))
}
