// The view calls, for C.
ghost use Rattle.plane.specs.Grade.{double};
ghost use Rattle.view.specs.Answers.{get_vertex_of, vertex_count_of, reverse_of, trim_of};
ghost use Rattle.view.specs.Validation.{validate_of, validate_counted, mark_answer};
ghost use Rattle.view.specs.Create.{create_of, new_start_of};
ghost use Rattle.record.specs.Record.{record_bytes};
ghost use Rattle.lent.specs.Lent.{itself, one, both, Answered, BothAnswered};
ghost use Rattle.lent.specs.Values.{vertex_numbers, list_reply, mark_byte, verdict_values};
ghost use Rattle.bisquefern.specs.Calls.{of_record, of_vertex, is_closed, point};

use bisquefern::code;

// The record of a view from `vertex` on segment `start`, over `traverse` vertices to (x, y) on segment `intersect`. 3, 1, 2, 5, 4, 5, 8.
#[unsafe(no_mangle)]
pub extern "C" fn bf_view_create(
    outline: &[f64],
    start: u64,
    x: f64,
    y: f64,
    intersect: u64,
    vertex: &[f64],
    traverse: u64,
    tolerance: f64,
    line_limit: f64,
    out: &mut [u8],
) -> u8
    ensures { Answered record_bytes (of_vertex vertex.now (λ v. create_of double line_limit outline.now start (point x y) intersect v traverse tolerance)) out.old result out.new }
{
    code(bisquefern::bf_view_create(
        outline, start, x, y, intersect, vertex, traverse, tolerance, line_limit, out,
    ))
}

// The record of a view round a closed outline, from (x, y) on segment `start`. 3, 1, 2, 10, 4, 8.
#[unsafe(no_mangle)]
pub extern "C" fn bf_view_from_new_start(
    outline: &[f64],
    closed: u8,
    x: f64,
    y: f64,
    start: u64,
    tolerance: f64,
    line_limit: f64,
    out: &mut [u8],
) -> u8
    ensures { Answered record_bytes (new_start_of double line_limit outline.now (is_closed closed) (point x y) start tolerance) out.old result out.new }
{
    code(bisquefern::bf_view_from_new_start(
        outline, closed, x, y, start, tolerance, line_limit, out,
    ))
}

// The verdict with its counts, the square roots that it took, and its numbers. 11, 12, 3, 1, 2, 4, 8.
#[unsafe(no_mangle)]
pub extern "C" fn bf_view_validate(
    outline: &[f64],
    bytes: &[u8],
    line_limit: f64,
    whole: &mut [u64],
    out: &mut [f64],
) -> u8
    ensures { BothAnswered verdict_values (of_record bytes.now (validate_counted double line_limit outline.now)) (both whole.old out.old) result (both whole.new out.new) }
{
    code(bisquefern::bf_view_validate(outline, bytes, line_limit, whole, out))
}

// 1 for cut, 0 for hold. 11, 12, 3, 1, 2, 4, 8.
#[unsafe(no_mangle)]
pub extern "C" fn bf_view_mark(
    outline: &[f64],
    closed: u8,
    bytes: &[u8],
    line_limit: f64,
    out: &mut [u8],
) -> u8
    ensures { Answered mark_byte (of_record bytes.now (λ d. mark_answer (is_closed closed) outline.now d (validate_of double line_limit outline.now d))) out.old result out.new }
{
    code(bisquefern::bf_view_mark(outline, closed, bytes, line_limit, out))
}

// How many vertices the view has. 11, 12, 3, 1, 5, 4, 8.
#[unsafe(no_mangle)]
pub extern "C" fn bf_view_count(outline: &[f64], bytes: &[u8], out: &mut [u64]) -> u8
    ensures { Answered one (of_record bytes.now (vertex_count_of double outline.now)) out.old result out.new }
{
    code(bisquefern::bf_view_count(outline, bytes, out))
}

// The vertex at a position. 11, 12, 3, 5, 4, 1, 8.
#[unsafe(no_mangle)]
pub extern "C" fn bf_view_get(outline: &[f64], bytes: &[u8], position: u64, out: &mut [f64]) -> u8
    ensures { Answered vertex_numbers (of_record bytes.now (λ d. get_vertex_of double outline.now d position)) out.old result out.new }
{
    code(bisquefern::bf_view_get(outline, bytes, position, out))
}

// All vertices in threes, and how many. 11, 12, 3, 1, 5, 4, 8.
#[unsafe(no_mangle)]
pub extern "C" fn bf_view_list(
    outline: &[f64],
    bytes: &[u8],
    out: &mut [f64],
    count: &mut [u64],
) -> u8
    ensures { BothAnswered itself (of_record bytes.now (list_reply outline.now)) (both count.old out.old) result (both count.new out.new) }
{
    code(bisquefern::bf_view_list(outline, bytes, out, count))
}

// The record turned round. 11, 12, 3, 1, 5, 4, 7, 8.
#[unsafe(no_mangle)]
pub extern "C" fn bf_view_reverse(outline: &[f64], bytes: &[u8], out: &mut [u8]) -> u8
    ensures { Answered record_bytes (of_record bytes.now (reverse_of double outline.now)) out.old result out.new }
{
    code(bisquefern::bf_view_reverse(outline, bytes, out))
}

// The record of positions i to j. 11, 12, 3, 1, 5, 4, 7, 9, 8.
#[unsafe(no_mangle)]
pub extern "C" fn bf_view_trim(outline: &[f64], bytes: &[u8], i: u64, j: u64, out: &mut [u8]) -> u8
    ensures { Answered record_bytes (of_record bytes.now (λ d. trim_of double outline.now d i j)) out.old result out.new }
{
    code(bisquefern::bf_view_trim(outline, bytes, i, j, out))
}
