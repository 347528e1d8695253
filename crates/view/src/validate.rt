// The crate's `validate_for_source`, and the mark.
ghost use Rattle.real.specs.Reply.{reply_by};
ghost use Rattle.std.specs.Prelude.{◌≡◌, ◌+◌, ◌≤◌};
ghost use Rattle.real.specs.Tally.{tally, counting};
ghost use Rattle.plane.specs.Grade.{double};
ghost use Rattle.plane.specs.Range.{most_vertices};
ghost use Rattle.view.specs.Outline.{count_of};
ghost use Rattle.view.specs.Needs.{FewRoots};
ghost use Rattle.view.specs.Validation.{verdict_of, judged_tally, bulges_match_of, end_verdict, placed_by, counts_by, validate_of, validate_counted, mark_answer, mark_case};

use crate::check::numbers_in_range;
use crate::outline::Outline;
use crate::placed::PlacedView;
use crate::segment::ON_VERTEX;
use crate::validation::{Mark, ViewDataValidation};
use crate::view_data::PlineViewData;
use plane::{PlineVertex, fuzzy_eq_eps, limit_in_range, outline_is_whole};
use real::{Refusal, Rooted};

// Whether the bulges of a view on one segment match; a longer view has nothing to match.
fn bulges_match(d: PlineViewData) -> bool
    ensures { result ≡ bulges_match_of double d }
{
    let offset = d.end_index_offset;
    let v = d.updated_start;
    if offset == 0 {
        return fuzzy_eq_eps(d.updated_end_bulge, v.bulge, ON_VERTEX);
    }
    true
}

// Verdicts 4 to 7: whether the end point is on its segment, and that segment's first vertex.
fn judge_end(d: PlineViewData, on: bool, v: PlineVertex) -> ViewDataValidation
    ensures { verdict_of result ≡ end_verdict double d on v }
{
    let p = d.end_point;
    let first = d.updated_start;
    if !on {
        return ViewDataValidation::EndPointNotOnSegment { end_point: p };
    }
    if p.fuzzy_eq_eps(v.pos(), ON_VERTEX) {
        return ViewDataValidation::EndPointOnFinalOffsetVertex {
            end_point: p,
            final_offset_vertex: v,
        };
    }
    if !bulges_match(d) {
        return ViewDataValidation::UpdatedBulgeDoesNotMatch {
            updated_bulge: d.updated_end_bulge,
            expected: first.bulge,
        };
    }
    ViewDataValidation::IsValid
}

// Verdicts 4 to 7, with the roots of the start's test and of the end's.
fn judge_ended(
    d: PlineViewData,
    ended: Rooted<bool>,
    v: PlineVertex,
    roots: u8,
) -> Rooted<ViewDataValidation>
    requires { FewRoots ended roots }
    ensures { judged_tally result ≡ tally (end_verdict double d ended.value v) (roots + ended.roots) }
{
    Rooted {
        value: judge_end(d, ended.value, v),
        roots: roots + ended.roots,
    }
}

impl<'a> PlacedView<'a> {
    // Verdicts 3 to 7.
    fn judge(self, limit: f64) -> Rooted<ViewDataValidation>
        ensures { judged_tally result ≡ placed_by counting double limit self.entry.outline.numbers.now self.entry.view }
    {
        let PlacedView { outline, view: d } = self;
        let start = d.start_index;
        let first = d.updated_start;
        let p = first.pos();
        let started = outline.point_is_on_segment(start, p, limit);
        if !started.value {
            return Rooted {
                value: ViewDataValidation::UpdatedStartNotOnSegment { start_point: p },
                roots: started.roots,
            };
        }
        let last = outline.fwd_wrapping_index(start, d.end_index_offset);
        let ended = outline.point_is_on_segment(last, d.end_point, limit);
        judge_ended(d, ended, outline.vertex(last), started.roots)
    }
}

// Verdicts 1 and 2, then refusal 4, then the others.
fn judge_counts(
    source: &[f64],
    d: PlineViewData,
    limit: f64,
) -> Result<Rooted<ViewDataValidation>, Refusal>
    requires { count_of source.now ≤ most_vertices }
    ensures { reply_by judged_tally result ≡ counts_by counting double limit source.now d }
{
    let count = source.len() / 3;
    let offset = d.end_index_offset;
    let start = d.start_index;
    if count < 2 {
        return Ok(Rooted {
            value: ViewDataValidation::SourceHasNoSegments,
            roots: 0,
        });
    }
    if count < offset {
        return Ok(Rooted {
            value: ViewDataValidation::OffsetOutOfRange {
                offset,
                source_length: count,
            },
            roots: 0,
        });
    }
    if start >= count {
        return Err(Refusal::BadIndex);
    }
    let outline = Outline { numbers: source };
    Ok(PlacedView { outline, view: d }.judge(limit))
}

impl PlineViewData {
    // The crate's verdict on the record over an outline, and how many square roots it took.
    pub fn validate_for_source(
        self,
        source: &[f64],
        limit: f64,
    ) -> Result<Rooted<ViewDataValidation>, Refusal>
        ensures { reply_by judged_tally result ≡ validate_counted double limit source.now self }
    {
        if !outline_is_whole(source) {
            return Err(Refusal::BadOutline);
        }
        if !numbers_in_range(source, self) {
            return Err(Refusal::BadNumber);
        }
        if !limit_in_range(limit) {
            return Err(Refusal::BadTolerance);
        }
        judge_counts(source, self, limit)
    }

    // Whether the view is cut or held.
    pub fn mark(self, source: &[f64], closed: bool, limit: f64) -> Result<Mark, Refusal>
        ensures { reply_by mark_case result ≡ mark_answer closed source.now self (validate_of double limit source.now self) }
    {
        let judged = self.validate_for_source(source, limit)?;
        Ok(judged.value.mark(self, source, closed))
    }
}
