// Decimal numbers with no zero in front.
ghost use Rattle.std.specs.Prelude.{◌≡◌, ◌+◌, ◌/◌, ◌%◌, ◌≤◌, ◌<◌, length, set};
ghost use Rattle.text.specs.Digits as spec;
ghost use Rattle.text.specs.Wrote.{Wrote, Put};

use crate::piece::has_room;

// How many digits n has. Most numbers of a sheet are short, and the logarithm takes longer than all else of them.
fn count_digits(n: u64) -> usize
    ensures { result ≡ length (spec.decimal n) }
{
    match n {
        ..=9 => 1,
        ..=99 => 2,
        ..=999 => 3,
        ..=9999 => 4,
        _ => n.ilog10() as usize + 1,
    }
}

// Two digits. Their codes, `b'0' + pair / 10` and `b'0' + pair % 10`, are bytes of one number, so that they are stored together.
fn put_pair(out: &mut [u8], at: usize, pair: u8)
    requires { (pair < 100) × (at + 2 ≤ length out.old) }
    ensures { out.new ≡ set (set out.old at (spec.digit (pair / 10))) (at + 1) (spec.digit (pair % 10)) }
{
    let codes = 0x3030 + pair as u16 * 0x100 - (pair / 10) as u16 * 0x9ff;
    out[at] = (codes % 0x100) as u8;
    out[at + 1] = (codes / 0x100) as u8;
}

// The last digits of n, from the end: four at a time, a pair and one.
fn put_digits(out: &mut [u8], at: usize, count: usize, n: u64) -> usize
    requires { at + count ≤ length out.old }
    ensures { Wrote out.old at (spec.digits count n) out.new result }
{
    let mut left = count;
    let mut rest = n;
    while left >= 4 {
        left -= 4;
        let four = (rest % 10000) as u32;
        put_pair(out, at + left + 2, (four % 100) as u8);
        put_pair(out, at + left, (four / 100) as u8);
        rest /= 10000;
    }
    if left >= 2 {
        left -= 2;
        put_pair(out, at + left, (rest % 100) as u8);
        rest /= 100;
    }
    if left == 1 {
        out[at] = b'0' + (rest % 10) as u8;
    }
    at + count
}

pub fn put_decimal(out: &mut [u8], at: usize, n: u64) -> usize
    ensures { Put out.old at (spec.decimal n) out.new result }
{
    let count = count_digits(n);
    if !has_room(out.len(), at, count) {
        return at;
    }
    put_digits(out, at, count, n)
}
