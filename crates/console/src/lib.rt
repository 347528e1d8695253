// What the programs share: reading standard input, in which an error is no end of the input, and words on standard error.
#![tactic(auto)]

mod input;
mod words;

pub use input::read_input;
pub use words::say;
