// The crate's `ViewDataValidation`, and the mark that comes of it.
ghost use Rattle.std.specs.Prelude.{◌≡◌};
ghost use Rattle.view.specs.Validation.{verdict_of, mark_case, mark_of};

use crate::gap::is_across_gap;
use crate::view_data::PlineViewData;
use plane::{PlineVertex, Vector2};

#[derive(Clone, Copy, Debug, PartialEq)]
pub enum ViewDataValidation {
    SourceHasNoSegments,
    OffsetOutOfRange {
        offset: usize,
        source_length: usize,
    },
    UpdatedStartNotOnSegment {
        start_point: Vector2,
    },
    EndPointNotOnSegment {
        end_point: Vector2,
    },
    EndPointOnFinalOffsetVertex {
        end_point: Vector2,
        final_offset_vertex: PlineVertex,
    },
    UpdatedBulgeDoesNotMatch {
        updated_bulge: f64,
        expected: f64,
    },
    IsValid,
}

#[derive(Clone, Copy, Debug, PartialEq, Eq)]
pub enum Mark {
    Cut,
    Hold,
}

impl ViewDataValidation {
    // Document 01's number of the verdict.
    pub fn number(self) -> u8
        ensures { result ≡ (verdict_of self).number }
    {
        match self {
            ViewDataValidation::SourceHasNoSegments => 1,
            ViewDataValidation::OffsetOutOfRange { .. } => 2,
            ViewDataValidation::UpdatedStartNotOnSegment { .. } => 3,
            ViewDataValidation::EndPointNotOnSegment { .. } => 4,
            ViewDataValidation::EndPointOnFinalOffsetVertex { .. } => 5,
            ViewDataValidation::UpdatedBulgeDoesNotMatch { .. } => 6,
            ViewDataValidation::IsValid => 7,
        }
    }

    // Whether a view with this verdict over an outline is cut.
    pub fn mark(self, d: PlineViewData, source: &[f64], closed: bool) -> Mark
        ensures { mark_case result ≡ mark_of closed source.now d (verdict_of self) }
    {
        let ViewDataValidation::IsValid = self else {
            return Mark::Hold;
        };
        if is_across_gap(d, source, closed) {
            return Mark::Hold;
        }
        Mark::Cut
    }
}
