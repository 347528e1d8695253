// The point of a segment that is closest to a point.
ghost use Rattle.std.specs.Prelude.{◌≡◌};
ghost use Rattle.real.specs.Reply.{reply};
ghost use Rattle.real.specs.Tally.{counting, tally_of};
ghost use Rattle.plane.specs.Grade.{double};
ghost use Rattle.plane.specs.Vertex.{pos_of};
ghost use Rattle.seg.specs.Closest.{radial_scale_by, radial_by, nearer_of, arc_closest_by, closest_by, closest_of, seg_closest};

use crate::arc::{arc_center, chord, inv_four_bulge, sweeps_over};
use plane::{
    PlineVertex, Vector2, dist_squared, line_seg_closest_point, point_in_range, seg_in_range,
    tol_and_limit_in_range,
};
use real::{Refusal, Rooted, counted_root, magnitude};

// A vertex's own point takes none.
fn at_vertex(v: PlineVertex) -> Rooted<Vector2>
    ensures { tally_of result ≡ counting.done (pos_of v) }
{
    let value = v.pos();
    Rooted { value, roots: 0 }
}

// What the radial is scaled by to reach the arc, from the squared chord c2 and the squared radial r2.
fn radius_to_radial_length(bulge: f64, c2: f64, r2: f64) -> Rooted<f64>
    ensures { tally_of result ≡ radial_scale_by counting double bulge c2 r2 }
{
    let ratio = counted_root(c2 / r2);
    let bulge_squared = bulge * bulge;
    Rooted {
        value: ratio.value * (1.0 + bulge_squared) * magnitude(inv_four_bulge(bulge)),
        roots: ratio.roots,
    }
}

fn radial_point(v1: PlineVertex, v2: PlineVertex, center: Vector2, p: Vector2) -> Rooted<Vector2>
    ensures { tally_of result ≡ radial_by counting double v1 v2 center p }
{
    let radial = p - center;
    let c2 = chord(v1, v2).length_squared();
    let k = radius_to_radial_length(v1.bulge, c2, radial.length_squared());
    Rooted {
        value: radial.scale(k.value) + center,
        roots: k.roots,
    }
}

// Whether the first vertex is the nearer one.
fn nearer(a: PlineVertex, b: PlineVertex, p: Vector2) -> bool
    ensures { result ≡ nearer_of double (pos_of a) (pos_of b) p }
{
    dist_squared(a.pos(), p) < dist_squared(b.pos(), p)
}

// The arc's case, with the centre at hand.
fn arc_closest(
    v1: PlineVertex,
    v2: PlineVertex,
    center: Vector2,
    p: Vector2,
    eps: f64,
) -> Rooted<Vector2>
    ensures { tally_of result ≡ arc_closest_by counting double v1 v2 center p eps }
{
    if p.fuzzy_eq_eps(center, eps) {
        return at_vertex(v1);
    }
    if sweeps_over(v1, v2, center, p, eps) {
        return radial_point(v1, v2, center, p);
    }
    if nearer(v1, v2, p) {
        return at_vertex(v1);
    }
    at_vertex(v2)
}

// The closest point and its roots, for any numbers, any tolerance and any limit.
pub fn closest_point(
    v1: PlineVertex,
    v2: PlineVertex,
    p: Vector2,
    eps: f64,
    limit: f64,
) -> Rooted<Vector2>
    ensures { tally_of result ≡ closest_by counting double limit v1 v2 p eps }
{
    if v1.bulge_is_zero(limit) {
        return Rooted {
            value: line_seg_closest_point(v1.pos(), v2.pos(), p),
            roots: 0,
        };
    }
    arc_closest(v1, v2, arc_center(v1, v2), p, eps)
}

// The point alone. A line's does not go through a counted one: that goes through memory, and would take it twice as long.
fn closest(v1: PlineVertex, v2: PlineVertex, p: Vector2, eps: f64, limit: f64) -> Vector2
    ensures { result ≡ closest_of double limit v1 v2 p eps }
{
    if v1.bulge_is_zero(limit) {
        return line_seg_closest_point(v1.pos(), v2.pos(), p);
    }
    let Rooted { value, .. } = arc_closest(v1, v2, arc_center(v1, v2), p, eps);
    value
}

pub fn seg_closest_point(
    v1: PlineVertex,
    v2: PlineVertex,
    p: Vector2,
    eps: f64,
    limit: f64,
) -> Result<Vector2, Refusal>
    ensures { reply result ≡ seg_closest double limit v1 v2 p eps }
{
    if !seg_in_range(v1, v2) {
        return Err(Refusal::BadNumber);
    }
    if !point_in_range(p) {
        return Err(Refusal::BadNumber);
    }
    if !tol_and_limit_in_range(eps, limit) {
        return Err(Refusal::BadTolerance);
    }
    Ok(closest(v1, v2, p, eps, limit))
}
