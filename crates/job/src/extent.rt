// The box of all segments of a sheet's outline.
ghost use Rattle.std.specs.Prelude.{◌≡◌, true, ◌<◌};
ghost use Rattle.job.specs.Outline.{vertex_in_of};
ghost use Rattle.job.specs.Sheet.{vertices_ok};
ghost use Rattle.job.specs.Extent as spec;

use crate::header::Sheet;
use plane::LINE_LIMIT;
use seg::{Bounds, seg_bounding_box};

fn lesser(edge: f64, other: f64) -> f64
    ensures { result ≡ spec.lesser edge other }
{
    if other < edge { other } else { edge }
}

fn greater(edge: f64, other: f64) -> f64
    ensures { result ≡ spec.greater edge other }
{
    if edge < other { other } else { edge }
}

// A box, with each edge replaced by that of a later box which lies strictly beyond it.
fn wider(a: Bounds, b: Bounds) -> Bounds
    ensures { result ≡ spec.wider a b }
{
    Bounds {
        min_x: lesser(a.min_x, b.min_x),
        min_y: lesser(a.min_y, b.min_y),
        max_x: greater(a.max_x, b.max_x),
        max_y: greater(a.max_y, b.max_y),
    }
}

impl Sheet<'_> {
    // The box of the segment that starts at vertex k: with the vertices in range it is not refused.
    fn segment_box(&self, k: usize) -> Bounds
        requires sound { vertices_ok self.now.bytes.now ≡ true }
        requires inside { k < self.now.header.vertices }
        ensures { result ≡ spec.box_at_of (vertex_in_of self.now.bytes.now) self.now.header.vertices k }
    {
        let v1 = self.vertex(k);
        let v2 = self.vertex((k + 1) % self.header.vertices);
        seg_bounding_box(v1, v2, LINE_LIMIT).unwrap()
    }

    // The box of the segments 0 to `last`.
    pub(crate) fn outline_box(&self, last: usize) -> Bounds
        requires sound { vertices_ok self.now.bytes.now ≡ true }
        requires inside { last < self.now.header.vertices }
        ensures { result ≡ spec.box_to (vertex_in_of self.now.bytes.now) self.now.header.vertices last }
    {
        let mut b = self.segment_box(0);
        for k in 0..last {
            b = wider(b, self.segment_box(k + 1));
        }
        b
    }
}
