// Helpers that the crate's published text names and does not hold: document 01's working rules.
ghost use Rattle.std.specs.Prelude.{◌≡◌};
ghost use Rattle.plane.specs.Grade.{double};
ghost use Rattle.plane.specs.Math.{dist_sq_of, midpoint_of, min_max_of, sweep_of, in_sweep_of, line_nearest_by, line_nearest};

use crate::fuzzy::FUZZ;
use crate::vector2::Vector2;

#[derive(Clone, Copy)]
pub struct MinMax {
    pub min: f64,
    pub max: f64,
}

// The two numbers in order where the first is strictly less, else exchanged.
pub fn min_max(a: f64, b: f64) -> MinMax
    ensures { result ≡ min_max_of a b }
{
    if a < b {
        MinMax { min: a, max: b }
    } else {
        MinMax { min: b, max: a }
    }
}

pub fn dist_squared(a: Vector2, b: Vector2) -> f64
    ensures { result ≡ dist_sq_of double a b }
{
    (a - b).length_squared()
}

pub fn midpoint(a: Vector2, b: Vector2) -> Vector2
    ensures { result ≡ midpoint_of double a b }
{
    Vector2 {
        x: (a.x + b.x) / 2.0,
        y: (a.y + b.y) / 2.0,
    }
}

// Whether two perpendicular dots, of start and end with a point, are those of a point in the sweep.
fn in_sweep(clockwise: bool, a: f64, b: f64, eps: f64) -> bool
    ensures { result ≡ sweep_of clockwise a b eps }
{
    if clockwise {
        return a < eps && b > -eps;
    }
    a > -eps && b < eps
}

// Whether a point lies in the sweep of an arc.
pub fn point_within_arc_sweep(
    center: Vector2,
    start: Vector2,
    end: Vector2,
    clockwise: bool,
    point: Vector2,
    eps: f64,
) -> bool
    ensures { result ≡ in_sweep_of double center start end clockwise point eps }
{
    let offset = point - center;
    let a = (start - center).perp_dot(offset);
    let b = (end - center).perp_dot(offset);
    in_sweep(clockwise, a, b, eps)
}

// The closest point of a line segment, with its chord, the chord's squared length and the projection at hand.
fn line_closest(
    start: Vector2,
    end: Vector2,
    chord: Vector2,
    chord_length_squared: f64,
    projection: f64,
) -> Vector2
    ensures { result ≡ line_nearest_by double start end chord chord_length_squared projection }
{
    if projection < FUZZ {
        return start;
    }
    if chord_length_squared < projection + FUZZ {
        return end;
    }
    start + chord.scale(projection / chord_length_squared)
}

// The point of a line segment that is closest to a point.
pub fn line_seg_closest_point(start: Vector2, end: Vector2, point: Vector2) -> Vector2
    ensures { result ≡ line_nearest double start end point }
{
    let chord = end - start;
    let projection = (point - start).dot(chord);
    line_closest(start, end, chord, chord.length_squared(), projection)
}
