// Answers in lent buffers: where there is no room, or the answer is a refusal, nothing is written.
#![tactic(auto)]

mod drawing;
mod list;
mod segment;
mod values;
mod verdict;
mod write;

pub use drawing::give_drawing;
pub use list::give_list;
pub use segment::segment_from_slice;
pub use values::{Lend, give};
pub use verdict::give_verdict;
