// The box of a segment.
ghost use Rattle.std.specs.Prelude.{◌≡◌, cond};
ghost use Rattle.real.specs.Reply.{reply};
ghost use Rattle.plane.specs.Grade.{double};
ghost use Rattle.plane.specs.Vertex.{pos_of};
ghost use Rattle.seg.specs.Bounds.{line_box_of, rises, falls, crossings_of, any_of, start_radius, end_radius, cross_box_of, arc_box_by, arc_box_of, box_of, seg_box};

use crate::arc::{Circle, arc_circle, chord, ends_meet};
use plane::{FUZZ, PlineVertex, Vector2, limit_in_range, min_max, seg_in_range};
use real::Refusal;

#[derive(Clone, Copy)]
pub struct Bounds {
    pub min_x: f64,
    pub min_y: f64,
    pub max_x: f64,
    pub max_y: f64,
}

// The sides that an arc crosses between its ends.
#[derive(Clone, Copy)]
pub struct Crossings {
    pub right: bool,
    pub left: bool,
    pub top: bool,
    pub bottom: bool,
}

fn line_seg_bounding_box(start: Vector2, end: Vector2) -> Bounds
    ensures { result ≡ line_box_of start end }
{
    let x = min_max(start.x, end.x);
    let y = min_max(start.y, end.y);
    Bounds {
        min_x: x.min,
        min_y: y.min,
        max_x: x.max,
        max_y: y.max,
    }
}

// The box of the ends.
fn ends_box(v1: PlineVertex, v2: PlineVertex) -> Bounds
    ensures { result ≡ line_box_of (pos_of v1) (pos_of v2) }
{
    line_seg_bounding_box(v1.pos(), v2.pos())
}

fn rising(a: f64, b: f64) -> bool
    ensures { result ≡ rises double a b }
{
    a < 0.0 && b > 0.0
}

fn falling(a: f64, b: f64) -> bool
    ensures { result ≡ falls double a b }
{
    a > 0.0 && b < 0.0
}

fn find_crossings(start: Vector2, end: Vector2) -> Crossings
    ensures { result ≡ crossings_of double start end }
{
    Crossings {
        right: rising(start.y, end.y),
        left: falling(start.y, end.y),
        top: falling(start.x, end.x),
        bottom: rising(start.x, end.x),
    }
}

// By the radius vectors at the start and at the end, times 4 * bulge.
fn arc_crossings(v1: PlineVertex, v2: PlineVertex) -> Crossings
    ensures { result ≡ crossings_of double (start_radius double v1 v2) (end_radius double v1 v2) }
{
    let bulge = v1.bulge;
    let c = chord(v1, v2);
    let scaled_perp = c.perp().scale(bulge * bulge - 1.0);
    let scaled_chord = c.scale(2.0 * bulge);
    find_crossings(scaled_perp - scaled_chord, scaled_perp + scaled_chord)
}

fn crosses(c: Crossings) -> bool
    ensures { result ≡ any_of c }
{
    c.right || (c.left || (c.top || c.bottom))
}

fn pick(flag: bool, a: f64, b: f64) -> f64
    ensures { result ≡ cond flag a b }
{
    if flag { a } else { b }
}

// The box of the ends, moved out to the circle on each side that the arc crosses.
fn cross_box(ends: Bounds, circle: Circle, c: Crossings) -> Bounds
    ensures { result ≡ cross_box_of double ends circle c }
{
    Bounds {
        min_x: pick(c.left, circle.center.x - circle.radius, ends.min_x),
        min_y: pick(c.bottom, circle.center.y - circle.radius, ends.min_y),
        max_x: pick(c.right, circle.center.x + circle.radius, ends.max_x),
        max_y: pick(c.top, circle.center.y + circle.radius, ends.max_y),
    }
}

// The arc's box, with the box of its ends and its crossings at hand.
fn arc_box(v1: PlineVertex, v2: PlineVertex, ends: Bounds, c: Crossings) -> Bounds
    ensures { result ≡ arc_box_by double v1 v2 ends c }
{
    if ends_meet(v1, v2, FUZZ) {
        return Bounds {
            min_x: v1.x,
            min_y: v1.y,
            max_x: v1.x,
            max_y: v1.y,
        };
    }
    if !crosses(c) {
        return ends;
    }
    cross_box(ends, arc_circle(v1, v2), c)
}

fn arc_seg_bounding_box(v1: PlineVertex, v2: PlineVertex) -> Bounds
    ensures { result ≡ arc_box_of double v1 v2 }
{
    arc_box(v1, v2, ends_box(v1, v2), arc_crossings(v1, v2))
}

fn true_box(v1: PlineVertex, v2: PlineVertex, limit: f64) -> Bounds
    ensures { result ≡ box_of double limit v1 v2 }
{
    if v1.bulge_is_zero(limit) {
        return ends_box(v1, v2);
    }
    arc_seg_bounding_box(v1, v2)
}

pub fn seg_bounding_box(v1: PlineVertex, v2: PlineVertex, limit: f64) -> Result<Bounds, Refusal>
    ensures { reply result ≡ seg_box double limit v1 v2 }
{
    if !seg_in_range(v1, v2) {
        return Err(Refusal::BadNumber);
    }
    if !limit_in_range(limit) {
        return Err(Refusal::BadTolerance);
    }
    Ok(true_box(v1, v2, limit))
}
