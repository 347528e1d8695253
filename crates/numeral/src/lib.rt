// Numbers in a text: whole ones, and decimal ones as the nearest f64.
#![tactic(auto)]

mod decimal;
mod digits;

pub use decimal::number;
pub use digits::whole;
