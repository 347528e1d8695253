// Decimal numbers: a whole number over a power of ten, by one division.
ghost use Rattle.std.specs.Prelude.{◌≡◌, false, cond, ◌+◌, ◌^◌, ◌≤◌, ◌<◌, length, position, ◌==◌};
ghost use Rattle.std.specs.Float.{binary64};
ghost use Rattle.std.specs.Float.Ieee.{round, neg};
ghost use Rattle.real.specs.Reply.{reply};
ghost use Rattle.numeral.specs.Decimal as spec;

use crate::digits::digits_on;
use real::Refusal;

// The most digits of a number.
const MOST_DIGITS: usize = 15;

// Where the first point stands.
fn point(text: &[u8]) -> Option<usize>
    ensures { result ≡ position (λ b. b == 46) text.now }
{
    text.iter().position(|b| *b == b'.')
}

// What stands before the first point, and what after it.
fn parted(text: &[u8]) -> (&[u8], &[u8])
    ensures before { result.0.now ≡ spec.before_point text.now }
    ensures after { result.1.now ≡ spec.after_point text.now }
    ensures within { length result.0.now + length result.1.now ≤ length text.now }
{
    match point(text) {
        Some(p) => (&text[..p], &text[p + 1..]),
        None => (text, &[]),
    }
}

// The f64 nearest to n / p: an f64 holds both, and a division rounds once.
fn quotient(n: u64, p: u64) -> f64
    requires { (n < 2 ^ 53) × (p < 2 ^ 53) × (0 < p) }
    ensures { result ≡ round binary64 false n p }
{
    (n as f64) / (p as f64)
}

fn signed(x: f64, minus: bool) -> f64
    ensures { result ≡ cond minus (neg x) x }
{
    if minus { -x } else { x }
}

// The number of what stands before and after the point.
fn decimal(whole: &[u8], rest: &[u8], minus: bool) -> Result<f64, Refusal>
    requires { length whole.now + length rest.now ≤ 15 }
    ensures { reply result ≡ spec.decimal_of minus whole.now rest.now }
{
    let front = digits_on(whole, 0)?;
    let all = digits_on(rest, front)?;
    let power = 10u64.pow(rest.len() as u32);
    Ok(signed(quotient(all, power), minus))
}

// The number of a text without its sign.
fn unsigned(text: &[u8], minus: bool) -> Result<f64, Refusal>
    ensures { reply result ≡ spec.unsigned_of minus text.now }
{
    let (whole, rest) = parted(text);
    let digits = whole.len() + rest.len();
    if digits < 1 || digits > MOST_DIGITS {
        return Err(Refusal::BadText);
    }
    decimal(whole, rest, minus)
}

// The f64 nearest to the number that a text stands for.
pub fn number(text: &[u8]) -> Result<f64, Refusal>
    ensures { (reply result ≡ spec.number_of text.now) × spec.IsNumber text.now (reply result) }
{
    match text {
        [b'-', rest @ ..] => unsigned(rest, true),
        [b'+', rest @ ..] => unsigned(rest, false),
        _ => unsigned(text, false),
    }
}
