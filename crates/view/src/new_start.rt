// The crate's `PlineViewData::from_new_start`, on closed outlines.
ghost use Rattle.std.specs.Prelude.{◌≡◌, ◌<◌, ◌&&◌};
ghost use Rattle.real.specs.Reply.{reply};
ghost use Rattle.plane.specs.Grade.{double};
ghost use Rattle.plane.specs.Range.{point_ok};
ghost use Rattle.view.specs.Outline.{count_of, numbers_ok};
ghost use Rattle.view.specs.Needs.{Numbers};
ghost use Rattle.view.specs.Create.{moved_on, round_ending_of, round_from_of, new_start_of};

use crate::ending::{Ending, forward_data};
use crate::outline::{Outline, serves_views, vertices_in_range};
use crate::view_data::PlineViewData;
use plane::{Vector2, point_in_range, tol_and_limit_in_range};
use real::Refusal;
use seg::SplitResult;

// The segment that the view starts on: the next one for a point at the end of segment k.
fn move_on(outline: Outline, p: Vector2, k: usize, eps: f64) -> usize
    requires { k < count_of outline.numbers.now }
    ensures { Numbers (moved_on double outline.entry.numbers.now p k eps) (count_of outline.entry.numbers.now) result }
{
    let next = outline.fwd_wrapping_index(k, 1);
    let v = outline.vertex(next);
    if v.pos().fuzzy_eq_eps(p, eps) {
        next
    } else {
        k
    }
}

// How a view round the whole outline ends.
fn round_ending(outline: Outline, p: Vector2, k: usize, eps: f64, split: SplitResult) -> Ending
    requires { k < count_of outline.numbers.now }
    ensures { result ≡ round_ending_of double outline.entry.numbers.now p k eps split }
{
    let count = outline.vertex_count();
    let v = outline.vertex(k);
    let start = split.updated_start;
    if v.pos().fuzzy_eq_eps(p, eps) {
        let before = outline.vertex_past(k, count - 1);
        return Ending {
            offset: count - 1,
            bulge: before.bulge,
        };
    }
    Ending {
        offset: count,
        bulge: start.bulge,
    }
}

// The whole outline, from a point on segment k.
fn round_from(outline: Outline, p: Vector2, k: usize, eps: f64, limit: f64) -> PlineViewData
    requires { k < count_of outline.numbers.now }
    ensures { result ≡ round_from_of double limit outline.entry.numbers.now p k eps }
{
    let split = outline.split_segment(k, p, eps, limit);
    let e = round_ending(outline, p, k, eps, split);
    forward_data(k, split.split_vertex, p, e)
}

fn outline_and_point_in_range(source: &[f64], p: Vector2) -> bool
    ensures { result ≡ (numbers_ok double source.now && point_ok double p) }
{
    vertices_in_range(source) && point_in_range(p)
}

impl PlineViewData {
    // The view round the whole of a closed outline, from a point on segment `start`.
    pub fn from_new_start(
        source: &[f64],
        closed: bool,
        p: Vector2,
        start: usize,
        eps: f64,
        limit: f64,
    ) -> Result<PlineViewData, Refusal>
        ensures { reply result ≡ new_start_of double limit source.now closed p start eps }
    {
        if !serves_views(source) {
            return Err(Refusal::BadOutline);
        }
        if !outline_and_point_in_range(source, p) {
            return Err(Refusal::BadNumber);
        }
        if !tol_and_limit_in_range(eps, limit) {
            return Err(Refusal::BadTolerance);
        }
        if !closed {
            return Err(Refusal::NotClosed);
        }
        if start >= source.len() / 3 {
            return Err(Refusal::BadIndex);
        }
        let outline = Outline { numbers: source };
        let k = move_on(outline, p, start, eps);
        Ok(round_from(outline, p, k, eps, limit))
    }
}
