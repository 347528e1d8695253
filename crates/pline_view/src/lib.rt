// The crate's `PlineView`, a struct that borrows its outline.
#![tactic(auto)]

mod pline_view;

pub use pline_view::{PlineView, vertex_through_view};
