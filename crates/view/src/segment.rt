// A segment of an outline: whether a point lies on it (the closure `point_is_on_segment` of the crate's `validate_for_source`), and its split.
ghost use Rattle.std.specs.Prelude.{◌≡◌, ◌<◌};
ghost use Rattle.real.specs.Tally.{counting, tally_of};
ghost use Rattle.plane.specs.Grade.{double};
ghost use Rattle.view.specs.Outline.{count_of};
ghost use Rattle.view.specs.Segment.{near_end, near_closest_by, on_segment_by, on_outline_by, split_segment_of};

use crate::outline::Outline;
use plane::{PlineVertex, Vector2};
use real::Rooted;
use seg::{SplitResult, closest_point, split_at_point};

// An end that is nearer to a vertex than this sits on it.
pub const ON_VERTEX: f64 = 1e-5;

// A point that is nearer to a segment than this is on it.
const ON_SEGMENT: f64 = 1e-3;

fn near_an_end(v1: PlineVertex, v2: PlineVertex, p: Vector2) -> bool
    ensures { result ≡ near_end double v1 v2 p }
{
    p.fuzzy_eq_eps(v1.pos(), ON_SEGMENT) || p.fuzzy_eq_eps(v2.pos(), ON_SEGMENT)
}

fn near_closest_point(v1: PlineVertex, v2: PlineVertex, p: Vector2, limit: f64) -> Rooted<bool>
    ensures { tally_of result ≡ near_closest_by counting double limit v1 v2 p }
{
    let closest = closest_point(v1, v2, p, ON_VERTEX, limit);
    Rooted {
        value: closest.value.fuzzy_eq_eps(p, ON_SEGMENT),
        roots: closest.roots,
    }
}

fn is_on_segment(v1: PlineVertex, v2: PlineVertex, p: Vector2, limit: f64) -> Rooted<bool>
    ensures { tally_of result ≡ on_segment_by counting double limit v1 v2 p }
{
    if near_an_end(v1, v2, p) {
        return Rooted {
            value: true,
            roots: 0,
        };
    }
    near_closest_point(v1, v2, p, limit)
}

impl<'a> Outline<'a> {
    // Whether a point lies on segment k.
    pub fn point_is_on_segment(self, k: usize, p: Vector2, limit: f64) -> Rooted<bool>
        requires { k < count_of self.numbers.now }
        ensures { tally_of result ≡ on_outline_by counting double limit self.entry.numbers.now k p }
    {
        is_on_segment(self.vertex(k), self.vertex_past(k, 1), p, limit)
    }

    // Segment k, split at a point.
    pub fn split_segment(self, k: usize, p: Vector2, eps: f64, limit: f64) -> SplitResult
        requires { k < count_of self.numbers.now }
        ensures { result ≡ split_segment_of double limit self.entry.numbers.now k p eps }
    {
        split_at_point(self.vertex(k), self.vertex_past(k, 1), p, eps, limit)
    }
}
