// Radius and centre of an arc.
ghost use Rattle.std.specs.Prelude.{◌≡◌};
ghost use Rattle.real.specs.Reply.{reply};
ghost use Rattle.plane.specs.Grade.{double};
ghost use Rattle.plane.specs.Vec.{vnear_of};
ghost use Rattle.plane.specs.Vertex.{pos_of};
ghost use Rattle.seg.specs.Arc.{chord_of, inv_four_bulge_of, sweeps_over_of, radius_of, center_of, circle_of, seg_circle};

use plane::{FUZZ, PlineVertex, Vector2, limit_in_range, point_within_arc_sweep, seg_in_range};
use real::{Refusal, magnitude};

#[derive(Clone, Copy)]
pub struct Circle {
    pub radius: f64,
    pub center: Vector2,
}

pub fn chord(v1: PlineVertex, v2: PlineVertex) -> Vector2
    ensures { result ≡ chord_of double v1 v2 }
{
    v2.pos() - v1.pos()
}

// Whether the two ends are fuzzily equal.
pub fn ends_meet(v1: PlineVertex, v2: PlineVertex, eps: f64) -> bool
    ensures { result ≡ vnear_of double (pos_of v1) (pos_of v2) eps }
{
    v1.pos().fuzzy_eq_eps(v2.pos(), eps)
}

// Whether a point lies in the sweep of the arc about a centre.
pub fn sweeps_over(v1: PlineVertex, v2: PlineVertex, center: Vector2, p: Vector2, eps: f64) -> bool
    ensures { result ≡ sweeps_over_of double v1 v2 center p eps }
{
    point_within_arc_sweep(center, v1.pos(), v2.pos(), v1.bulge_is_neg(), p, eps)
}

pub fn inv_four_bulge(bulge: f64) -> f64
    ensures { result ≡ inv_four_bulge_of double bulge }
{
    1.0 / (4.0 * bulge)
}

pub fn arc_radius(v1: PlineVertex, v2: PlineVertex) -> f64
    ensures { result ≡ radius_of double v1 v2 }
{
    let bulge = v1.bulge;
    let bulge_squared = bulge * bulge;
    chord(v1, v2).length() * (1.0 + bulge_squared) * magnitude(inv_four_bulge(bulge))
}

pub fn arc_center(v1: PlineVertex, v2: PlineVertex) -> Vector2
    ensures { result ≡ center_of double v1 v2 }
{
    let bulge = v1.bulge;
    let c = chord(v1, v2);
    let half = c.scale(1.0 / 2.0);
    let rise = c
        .perp()
        .scale((1.0 - bulge) * (1.0 + bulge) * inv_four_bulge(bulge));
    v1.pos() + half + rise
}

pub fn arc_circle(v1: PlineVertex, v2: PlineVertex) -> Circle
    ensures { result ≡ circle_of double v1 v2 }
{
    let radius = arc_radius(v1, v2);
    let center = arc_center(v1, v2);
    Circle { radius, center }
}

pub fn seg_arc_radius_and_center(
    v1: PlineVertex,
    v2: PlineVertex,
    limit: f64,
) -> Result<Circle, Refusal>
    ensures { reply result ≡ seg_circle double limit v1 v2 }
{
    if !seg_in_range(v1, v2) {
        return Err(Refusal::BadNumber);
    }
    if !limit_in_range(limit) {
        return Err(Refusal::BadTolerance);
    }
    if v1.bulge_is_zero(limit) {
        return Err(Refusal::NoArc);
    }
    if ends_meet(v1, v2, FUZZ) {
        return Err(Refusal::NoArc);
    }
    Ok(arc_circle(v1, v2))
}
