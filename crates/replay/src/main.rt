// Runs a stored list of cases over the C face: reads it from standard input and writes a line for each answer.
//
// compare/cases/src/case.rs describes the list and the lines. Both stdin and stdout here are made by
// `cargo run --release --bin vectors -- ../crates/replay/stdin ../crates/replay/stdout` in compare/, from the published text and
// never from this library.
#![tactic(auto)]

mod call;
mod case;
mod face;
mod print;
mod read;
mod words;

use call::Call;
use case::replay;
use read::read_word;
use std::io::{Read, Write};

// One case: its call and its count of words are the halves of its first word. False where there is none.
fn step<R: Read, W: Write>(from: &mut R, to: &mut W, k: u64) -> bool {
    let Some(head) = read_word(from) else {
        return false;
    };
    replay(
        from,
        to,
        k,
        Call::from(head % 0x1_0000_0000),
        (head / 0x1_0000_0000) as usize,
    )
}

// Nothing says that the input ends, so the cases are counted up to a number that no list reaches.
fn main(rt: HostRuntime) {
    let mut from = rt.stdin();
    let mut to = rt.stdout();
    for k in 0..0x1_0000_0000 {
        if !step(&mut from, &mut to, k) {
            return;
        }
    }
}
