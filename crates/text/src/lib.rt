// Text into a lent buffer: each call writes its text at a place, keeps the rest, and answers the place after it. A text that does
// not fit is not begun.
#![tactic(auto)]

mod decimal;
mod hex;
mod piece;

pub use decimal::put_decimal;
pub use hex::put_float;
pub use piece::{has_room, put_byte, put_text};
