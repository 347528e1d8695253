// Whether a point is farther from a segment than a distance.
ghost use Rattle.std.specs.Prelude.{◌≡◌};
ghost use Rattle.real.specs.Reply.{reply};
ghost use Rattle.plane.specs.Grade.{double};
ghost use Rattle.plane.specs.Vertex.{pos_of};
ghost use Rattle.seg.specs.Distance.{line_far_of, ring_far_of, end_far_of, ends_far_of, arc_far_of, far_of, seg_far};

use crate::arc::{arc_center, arc_radius, sweeps_over};
use plane::{
    FUZZ, PlineVertex, Vector2, coord_in_range, dist_squared, point_in_range, seg_in_range,
    tol_and_limit_in_range,
};
use real::{Refusal, magnitude};

// d2 is the squared distance.
fn line_far(start: Vector2, end: Vector2, p: Vector2, d2: f64) -> bool
    ensures { result ≡ line_far_of double start end p d2 }
{
    let chord = end - start;
    let point_offset = p - start;
    let projection = point_offset.dot(chord);
    if projection < FUZZ {
        return point_offset.length_squared() > d2;
    }
    let chord_length_squared = chord.length_squared();
    if chord_length_squared < projection + FUZZ {
        return (p - end).length_squared() > d2;
    }
    let cross = point_offset.perp_dot(chord);
    cross * cross > d2 * chord_length_squared
}

// Whether a point in the sweep, r2 its squared distance from the centre, lies outside the ring of the distance about the arc.
fn ring_far(radius: f64, r2: f64, distance: f64) -> bool
    ensures { result ≡ ring_far_of double radius r2 distance }
{
    let outer_radius = radius + distance;
    if r2 > outer_radius * outer_radius {
        return true;
    }
    if radius <= distance {
        return false;
    }
    let inner_radius = radius - distance;
    r2 < inner_radius * inner_radius
}

fn end_far(end: PlineVertex, p: Vector2, d2: f64) -> bool
    ensures { result ≡ end_far_of double (pos_of end) p d2 }
{
    dist_squared(end.pos(), p) > d2
}

fn ends_far(v1: PlineVertex, v2: PlineVertex, p: Vector2, d2: f64) -> bool
    ensures { result ≡ ends_far_of double (pos_of v1) (pos_of v2) p d2 }
{
    end_far(v1, p, d2) && end_far(v2, p, d2)
}

// The arc's case, with the centre at hand.
fn arc_far(v1: PlineVertex, v2: PlineVertex, center: Vector2, p: Vector2, d: f64, eps: f64) -> bool
    ensures { result ≡ arc_far_of double v1 v2 center p d eps }
{
    if p.fuzzy_eq_eps(center, eps) {
        return end_far(v1, p, d * d);
    }
    if !sweeps_over(v1, v2, center, p, eps) {
        return ends_far(v1, v2, p, d * d);
    }
    ring_far(arc_radius(v1, v2), dist_squared(p, center), d)
}

// d is the distance's magnitude.
fn far(v1: PlineVertex, v2: PlineVertex, p: Vector2, d: f64, eps: f64, limit: f64) -> bool
    ensures { result ≡ far_of double limit v1 v2 p d eps }
{
    if v1.bulge_is_zero(limit) {
        return line_far(v1.pos(), v2.pos(), p, d * d);
    }
    arc_far(v1, v2, arc_center(v1, v2), p, d, eps)
}

pub fn seg_distance_is_greater_than(
    v1: PlineVertex,
    v2: PlineVertex,
    p: Vector2,
    distance: f64,
    eps: f64,
    limit: f64,
) -> Result<bool, Refusal>
    ensures { reply result ≡ seg_far double limit v1 v2 p distance eps }
{
    if !seg_in_range(v1, v2) {
        return Err(Refusal::BadNumber);
    }
    if !point_in_range(p) {
        return Err(Refusal::BadNumber);
    }
    if !coord_in_range(distance) {
        return Err(Refusal::BadNumber);
    }
    if !tol_and_limit_in_range(eps, limit) {
        return Err(Refusal::BadTolerance);
    }
    Ok(far(v1, v2, p, magnitude(distance), eps, limit))
}
