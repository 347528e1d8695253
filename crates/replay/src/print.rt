// Words to standard output.
use real::bits;
use std::io::Write;

pub fn print_word<W: Write>(to: &mut W, w: u64) {
    let _ = write!(to, " {w:016x}");
}

pub fn print_numbers<W: Write>(to: &mut W, numbers: &[f64]) {
    for x in numbers {
        print_word(to, bits(*x));
    }
}

pub fn print_words<W: Write>(to: &mut W, words: &[u64]) {
    for w in words {
        print_word(to, *w);
    }
}

// The 64 bytes of a record, 8 to a word.
pub fn print_record<W: Write>(to: &mut W, record: &[u8]) {
    for bytes in record.as_chunks::<8>().0 {
        print_word(to, u64::from_le_bytes(*bytes));
    }
}
