// The words of a case, taken in order. Past their end a word is 0.
use real::from_bits;

#[derive(Clone, Copy)]
pub struct Words<'a> {
    rest: &'a [u64],
}

impl<'a> Words<'a> {
    pub fn new(words: &'a [u64]) -> Words<'a> {
        Words { rest: words }
    }

    pub fn word(&mut self) -> u64 {
        let Some((&word, rest)) = self.rest.split_first() else {
            return 0;
        };
        self.rest = rest;
        word
    }

    pub fn number(&mut self) -> f64 {
        from_bits(self.word())
    }

    // The word's last byte.
    pub fn byte(&mut self) -> u8 {
        (self.word() & 0xff) as u8
    }

    // Numbers into a buffer, as far as it goes.
    pub fn numbers(&mut self, out: &mut [f64]) {
        for number in out.iter_mut() {
            *number = self.number();
        }
    }

    // Bytes into a buffer, 8 from a word, as far as it goes.
    pub fn bytes(&mut self, out: &mut [u8]) {
        for bytes in out.chunks_mut(8) {
            let word = self.word().to_le_bytes();
            for (byte, read) in bytes.iter_mut().zip(word) {
                *byte = read;
            }
        }
    }
}
