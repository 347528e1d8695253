// Views of an outline: the record, how `create` and `from_new_start` make one, lookup by position, listing, reversal and trim, validation and the mark.
#![tactic(auto)]

mod check;
mod create;
mod ending;
mod gap;
mod list;
mod lookup;
mod new_start;
mod outline;
mod part;
mod placed;
mod segment;
mod validate;
mod validation;
mod view_data;

pub use outline::vertices_in_range;
pub use validation::{Mark, ViewDataValidation};
pub use view_data::PlineViewData;
