// The job sheet of an outline, without views.
#![tactic(auto)]

mod header;
mod numbers;
mod sheet;

pub use sheet::{OUTLINE_SHEET_BYTES, outline_sheet};
