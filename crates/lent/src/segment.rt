// A segment from 6 numbers: x, y and bulge of its two vertices.
ghost use Rattle.std.specs.Prelude.{◌≡◌};
ghost use Rattle.real.specs.Reply.{reply};
ghost use Rattle.lent.specs.Segment as spec;

use plane::PlineVertex;
use real::Refusal;

#[tactic(auto, unfolding(crate::specs::Segment::segment_from))]
pub fn segment_from_slice(s: &[f64]) -> Result<(PlineVertex, PlineVertex), Refusal>
    ensures { reply result ≡ spec.segment_from s.now }
{
    let [x1, y1, bulge1, x2, y2, bulge2] = *s else {
        return Err(Refusal::BadOutline);
    };
    let v1 = PlineVertex {
        x: x1,
        y: y1,
        bulge: bulge1,
    };
    let v2 = PlineVertex {
        x: x2,
        y: y2,
        bulge: bulge2,
    };
    Ok((v1, v2))
}
