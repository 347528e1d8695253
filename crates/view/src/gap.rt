// The gap of an open outline: there is no segment from its last vertex back to its first.
ghost use Rattle.std.specs.Prelude.{◌≡◌};
ghost use Rattle.view.specs.Validation.{across_gap};

use crate::view_data::PlineViewData;

// Whether the view would be cut across the gap. Start plus offset may be past what a machine word holds, so the offset is
// compared with what is left of the outline.
pub fn is_across_gap(d: PlineViewData, source: &[f64], closed: bool) -> bool
    ensures { result ≡ across_gap closed source.now d }
{
    let count = source.len() / 3;
    let start = d.start_index;
    let offset = d.end_index_offset;
    if closed {
        return false;
    }
    if start >= count {
        return true;
    }
    offset >= count - start - 1
}
