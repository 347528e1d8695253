// A view that lies in its outline.
ghost use Rattle.view.specs.Needs.{Placed};

use crate::outline::Outline;
use crate::view_data::PlineViewData;

// A record over its outline, past the check of its place.
#[derive(Clone, Copy)]
pub struct PlacedView<'a> {
    pub outline: Outline<'a>,
    pub view: PlineViewData,
    ghost placed: { Placed outline.numbers.now view },
}
