// The view calls on an outline, numbers in threes, and a record, the job sheet's 64 bytes. A record's own refusals, 11 and 12, come first.
ghost use Rattle.plane.specs.Grade.{double};
ghost use Rattle.view.specs.Answers.{get_vertex_of, vertex_count_of, reverse_of, trim_of};
ghost use Rattle.view.specs.Validation.{validate_of, validate_counted, mark_answer};
ghost use Rattle.view.specs.Create.{create_of, new_start_of};
ghost use Rattle.record.specs.Record.{record_bytes};
ghost use Rattle.lent.specs.Lent.{itself, one, both, done, Answered, BothAnswered};
ghost use Rattle.lent.specs.Values.{vertex_numbers, list_reply, mark_byte, verdict_values};
ghost use Rattle.bisquefern.specs.Calls.{of_record, of_vertex, is_closed, point};

use lent::{give, give_list, give_verdict};
use plane::{PlineVertex, Vector2};
use real::Refusal;
use record::record_from_bytes;
use view::PlineViewData;

// The record of a view from `vertex` on segment `start`, over `traverse` vertices to (x, y) on segment `intersect`. 3, 1, 2, 5, 4, 5, 8.
pub fn bf_view_create(
    outline: &[f64],
    start: u64,
    x: f64,
    y: f64,
    intersect: u64,
    vertex: &[f64],
    traverse: u64,
    tolerance: f64,
    line_limit: f64,
    out: &mut [u8],
) -> Result<(), Refusal>
    ensures { Answered record_bytes (of_vertex vertex.now (λ v. create_of double line_limit outline.now start (point x y) intersect v traverse tolerance)) out.old (done result) out.new }
{
    let [first_x, first_y, bulge] = *vertex else {
        return Err(Refusal::BadOutline);
    };
    let first = PlineVertex {
        x: first_x,
        y: first_y,
        bulge,
    };
    give(
        PlineViewData::create(
            outline,
            start as usize,
            Vector2 { x, y },
            intersect as usize,
            first,
            traverse as usize,
            tolerance,
            line_limit,
        ),
        out,
    )
}

// The record of a view round a closed outline, from (x, y) on segment `start`. 3, 1, 2, 10, 4, 8.
pub fn bf_view_from_new_start(
    outline: &[f64],
    closed: u8,
    x: f64,
    y: f64,
    start: u64,
    tolerance: f64,
    line_limit: f64,
    out: &mut [u8],
) -> Result<(), Refusal>
    ensures { Answered record_bytes (new_start_of double line_limit outline.now (is_closed closed) (point x y) start tolerance) out.old (done result) out.new }
{
    give(
        PlineViewData::from_new_start(
            outline,
            closed != 0,
            Vector2 { x, y },
            start as usize,
            tolerance,
            line_limit,
        ),
        out,
    )
}

// The verdict with its counts, the square roots that it took, and its numbers. 11, 12, 3, 1, 2, 4, 8.
pub fn bf_view_validate(
    outline: &[f64],
    bytes: &[u8],
    line_limit: f64,
    whole: &mut [u64],
    out: &mut [f64],
) -> Result<(), Refusal>
    ensures { BothAnswered verdict_values (of_record bytes.now (validate_counted double line_limit outline.now)) (both whole.old out.old) (done result) (both whole.new out.new) }
{
    let d = record_from_bytes(bytes)?;
    give_verdict(d.validate_for_source(outline, line_limit), whole, out)
}

// 1 for cut, 0 for hold. 11, 12, 3, 1, 2, 4, 8.
pub fn bf_view_mark(
    outline: &[f64],
    closed: u8,
    bytes: &[u8],
    line_limit: f64,
    out: &mut [u8],
) -> Result<(), Refusal>
    ensures { Answered mark_byte (of_record bytes.now (λ d. mark_answer (is_closed closed) outline.now d (validate_of double line_limit outline.now d))) out.old (done result) out.new }
{
    let d = record_from_bytes(bytes)?;
    give(d.mark(outline, closed != 0, line_limit), out)
}

// How many vertices the view has. 11, 12, 3, 1, 5, 4, 8.
pub fn bf_view_count(outline: &[f64], bytes: &[u8], out: &mut [u64]) -> Result<(), Refusal>
    ensures { Answered one (of_record bytes.now (vertex_count_of double outline.now)) out.old (done result) out.new }
{
    let d = record_from_bytes(bytes)?;
    give(d.vertex_count(outline), out)
}

// The vertex at a position. 11, 12, 3, 5, 4, 1, 8.
pub fn bf_view_get(
    outline: &[f64],
    bytes: &[u8],
    position: u64,
    out: &mut [f64],
) -> Result<(), Refusal>
    ensures { Answered vertex_numbers (of_record bytes.now (λ d. get_vertex_of double outline.now d position)) out.old (done result) out.new }
{
    let d = record_from_bytes(bytes)?;
    give(d.get_vertex(outline, position as usize), out)
}

// All vertices in threes, and how many. 11, 12, 3, 1, 5, 4, 8.
pub fn bf_view_list(
    outline: &[f64],
    bytes: &[u8],
    out: &mut [f64],
    count: &mut [u64],
) -> Result<(), Refusal>
    ensures { BothAnswered itself (of_record bytes.now (list_reply outline.now)) (both count.old out.old) (done result) (both count.new out.new) }
{
    let d = record_from_bytes(bytes)?;
    give_list(outline, d, out, count)
}

// The record turned round. 11, 12, 3, 1, 5, 4, 7, 8.
pub fn bf_view_reverse(outline: &[f64], bytes: &[u8], out: &mut [u8]) -> Result<(), Refusal>
    ensures { Answered record_bytes (of_record bytes.now (reverse_of double outline.now)) out.old (done result) out.new }
{
    let d = record_from_bytes(bytes)?;
    give(d.reverse(outline), out)
}

// The record of positions i to j. 11, 12, 3, 1, 5, 4, 7, 9, 8.
pub fn bf_view_trim(
    outline: &[f64],
    bytes: &[u8],
    i: u64,
    j: u64,
    out: &mut [u8],
) -> Result<(), Refusal>
    ensures { Answered record_bytes (of_record bytes.now (λ d. trim_of double outline.now d i j)) out.old (done result) out.new }
{
    let d = record_from_bytes(bytes)?;
    give(d.trim(outline, i as usize, j as usize), out)
}
