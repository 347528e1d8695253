// The tangent of a segment at a point.
ghost use Rattle.std.specs.Prelude.{◌≡◌};
ghost use Rattle.real.specs.Reply.{reply};
ghost use Rattle.plane.specs.Grade.{double};
ghost use Rattle.seg.specs.Tangent.{arc_tangent_of, tangent_of, seg_tangent};

use crate::arc::chord;
use plane::{PlineVertex, Vector2, limit_in_range, point_in_range, seg_in_range};
use real::{Refusal, magnitude};

fn arc_tangent(v1: PlineVertex, v2: PlineVertex, p: Vector2) -> Vector2
    ensures { result ≡ arc_tangent_of double v1 v2 p }
{
    let bulge = v1.bulge;
    let c = chord(v1, v2);
    let point_offset = (p - v1.pos()).scale(2.0) - c;
    let numerator = c.scale((1.0 - bulge) * (1.0 + bulge)) + point_offset.perp().scale(2.0 * bulge);
    numerator.scale(1.0 / (4.0 * magnitude(bulge)))
}

fn tangent(v1: PlineVertex, v2: PlineVertex, p: Vector2, limit: f64) -> Vector2
    ensures { result ≡ tangent_of double limit v1 v2 p }
{
    if v1.bulge_is_zero(limit) {
        return chord(v1, v2);
    }
    arc_tangent(v1, v2, p)
}

pub fn seg_tangent_vector(
    v1: PlineVertex,
    v2: PlineVertex,
    p: Vector2,
    limit: f64,
) -> Result<Vector2, Refusal>
    ensures { reply result ≡ seg_tangent double limit v1 v2 p }
{
    if !seg_in_range(v1, v2) {
        return Err(Refusal::BadNumber);
    }
    if !point_in_range(p) {
        return Err(Refusal::BadNumber);
    }
    if !limit_in_range(limit) {
        return Err(Refusal::BadTolerance);
    }
    Ok(tangent(v1, v2, p, limit))
}
