// Words from standard input.
use std::io::Read;

// 8 bytes, little-endian; none where the input ends.
pub fn read_word<R: Read>(from: &mut R) -> Option<u64> {
    let mut bytes = [0u8; 8];
    from.read_exact(&mut bytes).ok()?;
    Some(u64::from_le_bytes(bytes))
}

// n words, as far as there is room and input.
pub fn read_words<R: Read>(from: &mut R, words: &mut [u64], n: usize) {
    for word in words.iter_mut().take(n) {
        let Some(read) = read_word(from) else {
            return;
        };
        *word = read;
    }
}
