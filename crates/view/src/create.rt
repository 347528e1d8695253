// The crate's `PlineViewData::create`.
ghost use Rattle.std.specs.Prelude.{◌≡◌, ◌<◌, ◌&&◌};
ghost use Rattle.real.specs.Reply.{reply};
ghost use Rattle.plane.specs.Grade.{double};
ghost use Rattle.plane.specs.Range.{point_ok, vertex_ok};
ghost use Rattle.view.specs.Outline.{count_of, numbers_ok};
ghost use Rattle.view.specs.Create.{end_on_top_of, end_on_segment_of, ending_of, ended_at_of, create_of};

use crate::check::both_less;
use crate::ending::{Ending, forward_data};
use crate::outline::{Outline, serves_views, vertices_in_range};
use crate::view_data::PlineViewData;
use plane::{PlineVertex, Vector2, point_in_range, tol_and_limit_in_range, vertex_in_range};
use real::Refusal;

// The end on top of vertex `at`.
fn end_on_top(outline: Outline, at: usize, b: f64, traverse: usize) -> Ending
    requires at { at < count_of outline.numbers.now }
    requires some { 0 < traverse }
    ensures { result ≡ end_on_top_of outline.entry.numbers.now at b traverse }
{
    let offset = traverse - 1;
    if offset == 0 {
        return Ending { offset, bulge: b };
    }
    let v = outline.vertex_past(at, outline.vertex_count() - 1);
    Ending {
        offset,
        bulge: v.bulge,
    }
}

// The end on segment `at`, whose bulge is trimmed to the point.
fn end_on_segment(
    outline: Outline,
    at: usize,
    p: Vector2,
    traverse: usize,
    eps: f64,
    limit: f64,
) -> Ending
    requires { at < count_of outline.numbers.now }
    ensures { result ≡ end_on_segment_of double limit outline.entry.numbers.now at p traverse eps }
{
    let split = outline.split_segment(at, p, eps, limit);
    let start = split.updated_start;
    Ending {
        offset: traverse,
        bulge: start.bulge,
    }
}

// How the view ends, at a point on segment `at`.
fn find_end(
    outline: Outline,
    p: Vector2,
    at: usize,
    b: f64,
    traverse: usize,
    eps: f64,
    limit: f64,
) -> Ending
    requires at { at < count_of outline.numbers.now }
    requires some { 0 < traverse }
    ensures { result ≡ ending_of double limit outline.entry.numbers.now p at b traverse eps }
{
    let v = outline.vertex(at);
    if p.fuzzy_eq_eps(v.pos(), eps) {
        return end_on_top(outline, at, b, traverse);
    }
    end_on_segment(outline, at, p, traverse, eps, limit)
}

// The record, unless its offset is above the vertex count.
fn ended_at(
    source: &[f64],
    start: usize,
    p: Vector2,
    first: PlineVertex,
    e: Ending,
) -> Result<PlineViewData, Refusal>
    ensures { reply result ≡ ended_at_of source.now start p first e }
{
    let offset = e.offset;
    if offset > source.len() / 3 {
        return Err(Refusal::BadOffset);
    }
    Ok(forward_data(start, first, p, e))
}

fn all_in_range(source: &[f64], p: Vector2, first: PlineVertex) -> bool
    ensures { result ≡ (numbers_ok double source.now && (point_ok double p && vertex_ok double first)) }
{
    vertices_in_range(source) && (point_in_range(p) && vertex_in_range(first))
}

impl PlineViewData {
    // The view from `first`, on segment `start`, over `traverse` vertices to a point on segment `at`.
    pub fn create(
        source: &[f64],
        start: usize,
        p: Vector2,
        at: usize,
        first: PlineVertex,
        traverse: usize,
        eps: f64,
        limit: f64,
    ) -> Result<PlineViewData, Refusal>
        ensures { reply result ≡ create_of double limit source.now start p at first traverse eps }
    {
        if !serves_views(source) {
            return Err(Refusal::BadOutline);
        }
        if !all_in_range(source, p, first) {
            return Err(Refusal::BadNumber);
        }
        if !tol_and_limit_in_range(eps, limit) {
            return Err(Refusal::BadTolerance);
        }
        if traverse == 0 {
            return Err(Refusal::BadOffset);
        }
        let count = source.len() / 3;
        if !both_less(start, count, at, count) {
            return Err(Refusal::BadIndex);
        }
        let outline = Outline { numbers: source };
        let e = find_end(outline, p, at, first.bulge, traverse, eps, limit);
        ended_at(source, start, p, first, e)
    }
}
