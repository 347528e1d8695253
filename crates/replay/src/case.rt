// One case: its arguments from its words, the call, and the answer's line.
ghost use Rattle.std.specs.Prelude.{◌≤◌};

use crate::call::Call;
use crate::face::{Buffers, Unanswered, answer};
use crate::print::{print_numbers, print_record, print_word, print_words};
use crate::read::read_words;
use crate::words::Words;
use std::io::{Read, Write};

// No case has more words, and none of its slices more places.
const MOST: usize = 8192;

// Buffers cut to their rooms, which are a case's last word, and for two calls the one before it.
fn cut<'a>(
    space: Buffers<'a>,
    call: Call,
    before: usize,
    last: usize,
) -> Result<Buffers<'a>, Unanswered> {
    let Buffers {
        numbers,
        words,
        bytes,
    } = space;
    let (n, w, b) = match call {
        Call::DistanceIsGreaterThan
        | Call::Create
        | Call::FromNewStart
        | Call::Mark
        | Call::Reverse
        | Call::Trim => (0, 0, last),
        Call::Validate => (last, before, 0),
        Call::Count => (0, last, 0),
        Call::List => (before, last, 0),
        _ => (last, 0, 0),
    };
    Ok(Buffers {
        numbers: numbers.get_mut(..n).ok_or(Unanswered::Unfit)?,
        words: words.get_mut(..w).ok_or(Unanswered::Unfit)?,
        bytes: bytes.get_mut(..b).ok_or(Unanswered::Unfit)?,
    })
}

// The words that an answer wrote.
fn print_answer<W: Write>(
    to: &mut W,
    call: Call,
    numbers: &[f64; MOST],
    words: &[u64; 16],
    bytes: &[u8; 256],
) {
    match call {
        Call::Sqrt => print_numbers(to, &numbers[..1]),
        Call::Vertex | Call::ArcRadiusAndCenter | Call::Get => print_numbers(to, &numbers[..3]),
        Call::SplitAtPoint => print_numbers(to, &numbers[..6]),
        Call::TangentVector | Call::ClosestPoint | Call::Midpoint => {
            print_numbers(to, &numbers[..2])
        }
        Call::BoundingBox => print_numbers(to, &numbers[..4]),
        Call::DistanceIsGreaterThan | Call::Mark => print_word(to, u64::from(bytes[0])),
        Call::Validate => {
            print_words(to, &words[..4]);
            print_numbers(to, &numbers[..5]);
        }
        Call::Count => print_words(to, &words[..1]),
        Call::List => {
            let vertices = words[0] as usize;
            for vertex in numbers.chunks(3).take(vertices) {
                print_numbers(to, vertex);
            }
            print_words(to, &words[..1]);
        }
        _ => print_record(to, &bytes[..64]),
    }
}

// The call of a case of n words.
fn run(call: Call, words: &[u64], n: usize, space: Buffers) -> Result<(), Unanswered>
    requires { 2 ≤ n }
{
    let before = words.get(n - 2).copied().unwrap_or(0) as usize;
    let last = words.get(n - 1).copied().unwrap_or(0) as usize;
    let mut args = Words::new(words);
    let mut first = [0.0; MOST];
    // A square root has no slice.
    let length = match call {
        Call::Sqrt => 0,
        _ => args.word() as usize,
    };
    let slice = first.get_mut(..length).ok_or(Unanswered::Unfit)?;
    args.numbers(slice);
    answer(call, &mut args, slice, cut(space, call, before, last)?)
}

// Reads and answers case k, of a call with n words; false for one that is too short.
pub fn replay<R: Read, W: Write>(from: &mut R, to: &mut W, k: u64, call: Call, n: usize) -> bool {
    if n < 2 {
        return false;
    }
    let mut case = [0; MOST];
    read_words(from, &mut case, n);
    let mut numbers = [0.0; MOST];
    let mut words = [0; 16];
    let mut bytes = [0; 256];
    let space = Buffers {
        numbers: &mut numbers,
        words: &mut words,
        bytes: &mut bytes,
    };
    match run(call, &case, n, space) {
        Ok(()) => {
            let _ = write!(to, "{k} 0");
            print_answer(to, call, &numbers, &words, &bytes);
        }
        Err(unanswered) => {
            let code = unanswered.code();
            let _ = write!(to, "{k} {code}");
        }
    }
    let _ = to.write_all(b"\n");
    true
}
