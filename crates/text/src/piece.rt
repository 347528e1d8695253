// Pieces of text at hand: a byte, and a run of bytes.
ghost use Rattle.std.specs.Prelude.{◌≡◌, [], ◌∷◌, ◌+◌, ◌≤◌, leb, length};
ghost use Rattle.text.specs.Wrote.{Wrote, Put};

// Whether n bytes fit from the place on, of `len` in all.
pub fn has_room(len: usize, at: usize, n: usize) -> bool
    ensures { result ≡ leb (at + n) len }
{
    at <= len && n <= len - at
}

pub fn put_byte(out: &mut [u8], at: usize, b: u8) -> usize
    ensures { Put out.old at (b ∷ []) out.new result }
{
    if at >= out.len() {
        return at;
    }
    out[at] = b;
    at + 1
}

// A text that fits. In a loop of ours LLVM knows that text and buffer do not overlap; at copy_from_slice it makes a test of it.
pub(crate) fn copy(out: &mut [u8], at: usize, text: &[u8]) -> usize
    requires { at + length text.now ≤ length out.old }
    ensures { Wrote out.old at text.now out.new result }
{
    for i in 0..text.len() {
        out[at + i] = text[i];
    }
    at + text.len()
}

pub fn put_text(out: &mut [u8], at: usize, text: &[u8]) -> usize
    ensures { Put out.old at text.now out.new result }
{
    if !has_room(out.len(), at, text.len()) {
        return at;
    }
    copy(out, at, text)
}
