// A verdict's counts, its roots and its numbers in two lent buffers.
ghost use Rattle.std.specs.Prelude.{◌≡◌};
ghost use Rattle.real.specs.Reply.{reply_by};
ghost use Rattle.real.specs.Tally.{tally};
ghost use Rattle.view.specs.Validation.{verdict_of, judged_tally};
ghost use Rattle.lent.specs.Lent.{both, done, BothAnswered};
ghost use Rattle.lent.specs.Values.{verdict_words_of, verdict_numbers_of, verdict_values};

use crate::write::write;
use real::{Refusal, Rooted};
use view::ViewDataValidation;

fn verdict_words(v: ViewDataValidation, roots: u64) -> [u64; 4]
    ensures { result ≡ verdict_words_of (tally (verdict_of v) roots) }
{
    let (offset, length) = match v {
        ViewDataValidation::OffsetOutOfRange {
            offset,
            source_length,
        } => (offset as u64, source_length as u64),
        _ => (0, 0),
    };
    [u64::from(v.number()), offset, length, roots]
}

fn verdict_numbers(v: ViewDataValidation) -> [f64; 5]
    ensures { result ≡ verdict_numbers_of (verdict_of v) }
{
    match v {
        ViewDataValidation::SourceHasNoSegments
        | ViewDataValidation::OffsetOutOfRange { .. }
        | ViewDataValidation::IsValid => [0.0; 5],
        ViewDataValidation::UpdatedStartNotOnSegment { start_point: p }
        | ViewDataValidation::EndPointNotOnSegment { end_point: p } => [p.x, p.y, 0.0, 0.0, 0.0],
        ViewDataValidation::EndPointOnFinalOffsetVertex {
            end_point: p,
            final_offset_vertex: v,
        } => [p.x, p.y, v.x, v.y, v.bulge],
        ViewDataValidation::UpdatedBulgeDoesNotMatch {
            updated_bulge,
            expected,
        } => [updated_bulge, expected, 0.0, 0.0, 0.0],
    }
}

// Either may be short; then nothing is written.
pub fn give_verdict(
    answer: Result<Rooted<ViewDataValidation>, Refusal>,
    whole: &mut [u64],
    out: &mut [f64],
) -> Result<(), Refusal>
    ensures { BothAnswered verdict_values (reply_by judged_tally answer) (both whole.old out.old) (done result) (both whole.new out.new) }
{
    let judged = answer?;
    if whole.len() < 4 {
        return Err(Refusal::NoRoom);
    }
    write(&verdict_numbers(judged.value), out)?;
    write(&verdict_words(judged.value, judged.roots as u64), whole)
}
