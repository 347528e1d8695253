// The record of a part of a view.
ghost use Rattle.std.specs.Prelude.{◌≡◌};
ghost use Rattle.plane.specs.Grade.{double};
ghost use Rattle.view.specs.Record.{part_of, trimmed_of};
ghost use Rattle.view.specs.Needs.{Positions};

use crate::placed::PlacedView;
use crate::view_data::PlineViewData;

impl<'a> PlacedView<'a> {
    // The record of positions a to b of the forward list.
    fn part(self, a: usize, b: usize) -> PlineViewData
        requires { Positions self.view a b }
        ensures { result ≡ part_of double self.entry.outline.numbers.now self.entry.view a b }
    {
        let PlacedView { outline, view: d } = self;
        let start = outline.fwd_wrapping_index(d.start_index, a);
        let first = self.forward(a);
        let last = self.forward(b - 1);
        let end = self.forward(b).pos();
        PlineViewData {
            start_index: start,
            end_index_offset: b - a - 1,
            updated_start: first,
            updated_end_bulge: last.bulge,
            end_point: end,
            ..d
        }
    }

    // The record of positions i to j of the view.
    pub fn trimmed(self, i: usize, j: usize) -> PlineViewData
        requires { Positions self.view i j }
        ensures { result ≡ trimmed_of double self.entry.outline.numbers.now self.entry.view i j }
    {
        let offset = self.view.end_index_offset;
        if self.view.inverted_direction {
            return self.part(offset + 1 - j, offset + 1 - i);
        }
        self.part(i, j)
    }
}
