// The split of a segment at a point.
ghost use Rattle.std.specs.Prelude.{◌≡◌};
ghost use Rattle.std.specs.Float.Ieee.{lt};
ghost use Rattle.real.specs.Reply.{reply};
ghost use Rattle.plane.specs.Grade.{double};
ghost use Rattle.plane.specs.Vec.{vnear_of};
ghost use Rattle.plane.specs.Vertex.{pos_of};
ghost use Rattle.seg.specs.Split.{split_at_of, signed_of, half_sine, part_bulge, other_bulge_of, ratio_sq, split_chords_of, split_arc_of, split_of, seg_split};

use crate::arc::{chord, ends_meet};
use plane::{PlineVertex, Vector2, point_in_range, seg_in_range, tol_and_limit_in_range};
use real::{Refusal, magnitude, root};

#[derive(Clone, Copy)]
pub struct SplitResult {
    pub updated_start: PlineVertex,
    pub split_vertex: PlineVertex,
}

fn sin_half_sweep(squared: f64) -> f64
    ensures { result ≡ half_sine double squared }
{
    if squared > 1.0 {
        return 1.0;
    }
    root(squared)
}

fn signed(v1: PlineVertex, m: f64) -> f64
    ensures { result ≡ signed_of (lt v1.bulge double.zero) m }
{
    if v1.bulge_is_neg() { -m } else { m }
}

// The closure of the crate's split: what it captures is passed in.
fn bulge_from_chord_length_squared(v1: PlineVertex, part: f64, whole: f64, ratio: f64) -> f64
    ensures { result ≡ part_bulge double (lt v1.bulge double.zero) part whole ratio }
{
    let s = sin_half_sweep(part / whole * ratio);
    let c = root((1.0 - s) * (1.0 + s));
    signed(v1, s / (1.0 + c))
}

fn other_bulge(b: f64, b1: f64) -> f64
    ensures { result ≡ other_bulge_of double b b1 }
{
    (b - b1) / (1.0 + b * b1)
}

fn diameter_ratio_squared(bulge: f64) -> f64
    ensures { result ≡ ratio_sq double bulge }
{
    let a = magnitude(bulge);
    let ratio = 2.0 * a / (a * a + 1.0);
    ratio * ratio
}

// The start stays, with a bulge of its own.
fn split_at(v1: PlineVertex, b1: f64, p: Vector2, b2: f64) -> SplitResult
    ensures { result ≡ split_at_of (pos_of v1) b1 p b2 }
{
    let updated_start = PlineVertex {
        x: v1.x,
        y: v1.y,
        bulge: b1,
    };
    let split_vertex = PlineVertex {
        x: p.x,
        y: p.y,
        bulge: b2,
    };
    SplitResult {
        updated_start,
        split_vertex,
    }
}

// The start is put on top of the split vertex.
fn split_at_start(v1: PlineVertex, p: Vector2) -> SplitResult
    ensures { result ≡ split_at_of p double.zero p v1.bulge }
{
    let updated_start = PlineVertex {
        x: p.x,
        y: p.y,
        bulge: 0.0,
    };
    split_at(updated_start, 0.0, p, v1.bulge)
}

// The split vertex is put on the end.
fn split_at_end(v1: PlineVertex, v2: PlineVertex) -> SplitResult
    ensures { result ≡ split_at_of (pos_of v1) v1.bulge (pos_of v2) double.zero }
{
    split_at(v1, v1.bulge, v2.pos(), 0.0)
}

// Whether a vertex lies at a point.
fn lies_at(v: PlineVertex, p: Vector2, eps: f64) -> bool
    ensures { result ≡ vnear_of double (pos_of v) p eps }
{
    v.pos().fuzzy_eq_eps(p, eps)
}

// The two bulges, the smaller chord's first.
fn split_chords(v1: PlineVertex, p: Vector2, whole: f64, chord1: f64, chord2: f64) -> SplitResult
    ensures { result ≡ split_chords_of double v1 p whole chord1 chord2 }
{
    let b = v1.bulge;
    let ratio = diameter_ratio_squared(b);
    if chord1 <= chord2 {
        let b1 = bulge_from_chord_length_squared(v1, chord1, whole, ratio);
        return split_at(v1, b1, p, other_bulge(b, b1));
    }
    let b2 = bulge_from_chord_length_squared(v1, chord2, whole, ratio);
    split_at(v1, other_bulge(b, b2), p, b2)
}

fn split_arc(v1: PlineVertex, v2: PlineVertex, p: Vector2) -> SplitResult
    ensures { result ≡ split_arc_of double v1 v2 p }
{
    let whole = chord(v1, v2).length_squared();
    let chord1 = (p - v1.pos()).length_squared();
    let chord2 = (v2.pos() - p).length_squared();
    split_chords(v1, p, whole, chord1, chord2)
}

// The split, for any numbers, any tolerance and any limit.
pub fn split_at_point(
    v1: PlineVertex,
    v2: PlineVertex,
    p: Vector2,
    eps: f64,
    limit: f64,
) -> SplitResult
    ensures { result ≡ split_of double limit v1 v2 p eps }
{
    if v1.bulge_is_zero(limit) {
        return split_at(v1, v1.bulge, p, 0.0);
    }
    if ends_meet(v1, v2, eps) {
        return split_at_start(v1, p);
    }
    if lies_at(v1, p, eps) {
        return split_at_start(v1, p);
    }
    if lies_at(v2, p, eps) {
        return split_at_end(v1, v2);
    }
    split_arc(v1, v2, p)
}

pub fn seg_split_at_point(
    v1: PlineVertex,
    v2: PlineVertex,
    p: Vector2,
    eps: f64,
    limit: f64,
) -> Result<SplitResult, Refusal>
    ensures { reply result ≡ seg_split double limit v1 v2 p eps }
{
    if !seg_in_range(v1, v2) {
        return Err(Refusal::BadNumber);
    }
    if !point_in_range(p) {
        return Err(Refusal::BadNumber);
    }
    if !tol_and_limit_in_range(eps, limit) {
        return Err(Refusal::BadTolerance);
    }
    Ok(split_at_point(v1, v2, p, eps, limit))
}
