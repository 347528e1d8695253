// How a view that is being made ends, and its record.
ghost use Rattle.std.specs.Prelude.{◌≡◌};
ghost use Rattle.view.specs.Create.{forward_data_of};

use crate::view_data::PlineViewData;
use plane::{PlineVertex, Vector2};

// An offset, and the bulge of the view's last segment.
#[derive(Clone, Copy)]
pub struct Ending {
    pub offset: usize,
    pub bulge: f64,
}

// The record of a view from `first`, on segment `start`, that ends so at p.
pub(crate) fn forward_data(start: usize, first: PlineVertex, p: Vector2, e: Ending) -> PlineViewData
    ensures { result ≡ forward_data_of start first p e }
{
    PlineViewData {
        start_index: start,
        end_index_offset: e.offset,
        updated_start: first,
        updated_end_bulge: e.bulge,
        end_point: p,
        inverted_direction: false,
        cut_number: 0,
    }
}
