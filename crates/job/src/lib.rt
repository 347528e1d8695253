// The job sheet: its bytes and its text.
#![tactic(auto)]

mod extent;
mod header;
mod line;
mod outline;
mod part;
mod records;
mod row;
mod sheet;
mod size;

pub use part::{refused_sheet, sheet_part};
pub use sheet::{Opened, open_sheet};
pub use size::{
    HEADER_BYTES, LIST_NUMBERS, OUTLINE_NUMBERS, PART_BYTES, SHEET_BYTES, VERTEX_BYTES,
};
