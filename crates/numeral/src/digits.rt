// Digits, and the number that they stand for.
ghost use Rattle.std.specs.Prelude.{◌≡◌, ◌+◌, ◌*◌, ◌≤◌, ◌<◌};
ghost use Rattle.real.specs.Reply.{reply};
ghost use Rattle.numeral.specs.Digits as spec;

use real::Refusal;

// A number from here on is kept as this one or the next, whichever has its parity.
const CAP: u64 = 10_000_000_000_000_000_000;

// The digit d written on after v.
fn written_on(v: u64, d: u64) -> u64
    requires { (v ≤ spec.cap + 1) × (d ≤ 9) }
    ensures { (result ≡ spec.kept (10 * v + d)) × (result ≤ spec.cap + 1) }
{
    if v < CAP / 10 {
        10 * v + d
    } else {
        CAP + d % 2
    }
}

// The number of some digits, written on after v.
pub(crate) fn digits_on(text: &[u8], v: u64) -> Result<u64, Refusal>
    requires { v < spec.cap }
    ensures { reply result ≡ spec.digits_of v text.now }
{
    let mut n = v;
    for b in text {
        if !b.is_ascii_digit() {
            return Err(Refusal::BadText);
        }
        n = written_on(n, u64::from(*b - b'0'));
    }
    Ok(n)
}

// The number of a text of digits, one at least.
pub fn whole(text: &[u8]) -> Result<u64, Refusal>
    ensures { reply result ≡ spec.whole_of text.now }
{
    if text.is_empty() {
        return Err(Refusal::BadText);
    }
    digits_on(text, 0)
}
