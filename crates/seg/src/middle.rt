// The midpoint of a segment.
ghost use Rattle.std.specs.Prelude.{◌≡◌};
ghost use Rattle.real.specs.Reply.{reply};
ghost use Rattle.plane.specs.Grade.{double};
ghost use Rattle.plane.specs.Math.{midpoint_of};
ghost use Rattle.plane.specs.Vertex.{pos_of};
ghost use Rattle.seg.specs.Middle.{arc_mid, mid_of, seg_mid};

use plane::{PlineVertex, Vector2, limit_in_range, midpoint, seg_in_range};
use real::Refusal;

fn chord_midpoint(v1: PlineVertex, v2: PlineVertex) -> Vector2
    ensures { result ≡ midpoint_of double (pos_of v1) (pos_of v2) }
{
    midpoint(v1.pos(), v2.pos())
}

fn arc_middle(v1: PlineVertex, v2: PlineVertex) -> Vector2
    ensures { result ≡ arc_mid double v1 v2 }
{
    let m = chord_midpoint(v1, v2);
    let half_bulge = v1.bulge / 2.0;
    Vector2 {
        x: m.x + half_bulge * (v2.y - v1.y),
        y: m.y - half_bulge * (v2.x - v1.x),
    }
}

fn middle(v1: PlineVertex, v2: PlineVertex, limit: f64) -> Vector2
    ensures { result ≡ mid_of double limit v1 v2 }
{
    if v1.bulge_is_zero(limit) {
        return chord_midpoint(v1, v2);
    }
    arc_middle(v1, v2)
}

pub fn seg_midpoint(v1: PlineVertex, v2: PlineVertex, limit: f64) -> Result<Vector2, Refusal>
    ensures { reply result ≡ seg_mid double limit v1 v2 }
{
    if !seg_in_range(v1, v2) {
        return Err(Refusal::BadNumber);
    }
    if !limit_in_range(limit) {
        return Err(Refusal::BadTolerance);
    }
    Ok(middle(v1, v2, limit))
}
