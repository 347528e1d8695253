// Outlines read from the text of a DXF file.
#![tactic(auto)]

mod entity;
mod item;
mod line;
mod outline;
mod state;

pub use outline::{DxfOutline, dxf_outline};
pub use state::OUTLINE_NUMBERS;
