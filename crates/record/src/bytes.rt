// Little-endian numbers in bytes, read and written. A byte past the end is read as 0.
ghost use Rattle.std.specs.Prelude.{ℕ, ◌≡◌, ◌+◌, ◌<◌, get_or};
ghost use Rattle.record.specs.Bytes as spec;
ghost use Rattle.text.specs.Wrote.{Put};

use real::{bits, from_bits};
use text::put_text;

// The N bytes from the place on.
fn bytes_at<const N: usize>(bytes: &[u8], at: usize) -> [u8; N]
    ensures { (i : ℕ) → i < N → get_or result i 0 ≡ get_or bytes.now (at + i) 0 }
{
    let rest = &bytes[at.min(bytes.len())..];
    match rest.first_chunk() {
        Some(chunk) => *chunk,
        None => {
            let mut padded = [0; N];
            padded[..rest.len()].copy_from_slice(rest);
            padded
        }
    }
}

pub fn le16(bytes: &[u8], at: usize) -> usize
    ensures { (result ≡ spec.le16 bytes.now at) × (result < 65536) }
{
    u16::from_le_bytes(bytes_at(bytes, at)) as usize
}

pub fn le32(bytes: &[u8], at: usize) -> usize
    ensures { (result ≡ spec.le32 bytes.now at) × (result < 4294967296) }
{
    u32::from_le_bytes(bytes_at(bytes, at)) as usize
}

pub fn float_at(bytes: &[u8], at: usize) -> f64
    ensures { result ≡ spec.float_at bytes.now at }
{
    from_bits(u64::from_le_bytes(bytes_at(bytes, at)))
}

// Writes the last four bytes of n, the least first.
pub(crate) fn put32(out: &mut [u8], at: usize, n: usize) -> usize
    ensures { Put out.old at (spec.bytes4 n) out.new result }
{
    put_text(out, at, &n.to_le_bytes()[..4])
}

// Writes the eight bytes of a float's pattern.
pub fn put_number(out: &mut [u8], at: usize, x: f64) -> usize
    ensures { Put out.old at (spec.float_bytes x) out.new result }
{
    put_text(out, at, &bits(x).to_le_bytes())
}
