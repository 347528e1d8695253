// The calls, with the arguments that follow their first slice.
use crate::call::Call;
use crate::words::Words;
use bisquefern::{
    bf_seg_arc_radius_and_center, bf_seg_bounding_box, bf_seg_closest_point,
    bf_seg_distance_is_greater_than, bf_seg_midpoint, bf_seg_split_at_point, bf_seg_tangent_vector,
    bf_sqrt, bf_vertex, bf_view_count, bf_view_create, bf_view_from_new_start, bf_view_get,
    bf_view_list, bf_view_mark, bf_view_reverse, bf_view_trim, bf_view_validate, code,
};
use real::Refusal;

// Why a case has no answer.
#[derive(Clone, Copy, Debug, PartialEq, Eq)]
pub enum Unanswered {
    Refused(Refusal),
    // A slice or a room of the case is larger than what there is here.
    Unfit,
}

impl From<Refusal> for Unanswered {
    fn from(refusal: Refusal) -> Unanswered {
        Unanswered::Refused(refusal)
    }
}

impl Unanswered {
    // What a line says of it.
    pub fn code(self) -> u8 {
        match self {
            Unanswered::Refused(refusal) => code(Err(refusal)),
            Unanswered::Unfit => 255,
        }
    }
}

// The buffers that a call is lent.
#[derive(Drop)]
pub struct Buffers<'a> {
    pub numbers: &'a mut [f64],
    pub words: &'a mut [u64],
    pub bytes: &'a mut [u8],
}

// A slice of at most 256 bytes or 16 numbers, by its length and its words.
fn record<'a>(args: &mut Words, space: &'a mut [u8]) -> Result<&'a [u8], Unanswered> {
    let n = args.word() as usize;
    let record = space.get_mut(..n).ok_or(Unanswered::Unfit)?;
    args.bytes(record);
    Ok(record)
}

fn vertex<'a>(args: &mut Words, space: &'a mut [f64]) -> Result<&'a [f64], Unanswered> {
    let n = args.word() as usize;
    let vertex = space.get_mut(..n).ok_or(Unanswered::Unfit)?;
    args.numbers(vertex);
    Ok(vertex)
}

fn four(args: &mut Words) -> [f64; 4] {
    let mut numbers = [0.0; 4];
    args.numbers(&mut numbers);
    numbers
}

fn create(args: &mut Words, s: &[f64], out: &mut [u8]) -> Result<(), Unanswered> {
    let start = args.word();
    let x = args.number();
    let y = args.number();
    let intersect = args.word();
    let mut space = [0.0; 16];
    let vertex = vertex(args, &mut space)?;
    let traverse = args.word();
    let tolerance = args.number();
    let limit = args.number();
    bf_view_create(
        s, start, x, y, intersect, vertex, traverse, tolerance, limit, out,
    )?;
    Ok(())
}

// A call on the slice s, with what follows it in its case.
pub fn answer(call: Call, args: &mut Words, s: &[f64], lent: Buffers) -> Result<(), Unanswered> {
    let Buffers {
        numbers,
        words,
        bytes,
    } = lent;
    let done = match call {
        Call::Sqrt => bf_sqrt(args.number(), numbers),
        Call::Vertex => bf_vertex(s, numbers),
        Call::ArcRadiusAndCenter => bf_seg_arc_radius_and_center(s, args.number(), numbers),
        Call::SplitAtPoint => {
            let [x, y, tolerance, limit] = four(args);
            bf_seg_split_at_point(s, x, y, tolerance, limit, numbers)
        }
        Call::TangentVector => {
            let [x, y, limit, _] = four(args);
            bf_seg_tangent_vector(s, x, y, limit, numbers)
        }
        Call::ClosestPoint => {
            let [x, y, tolerance, limit] = four(args);
            bf_seg_closest_point(s, x, y, tolerance, limit, numbers)
        }
        Call::DistanceIsGreaterThan => {
            let [x, y, distance, tolerance] = four(args);
            bf_seg_distance_is_greater_than(s, x, y, distance, tolerance, args.number(), bytes)
        }
        Call::BoundingBox => bf_seg_bounding_box(s, args.number(), numbers),
        Call::Midpoint | Call::Zero => bf_seg_midpoint(s, args.number(), numbers),
        Call::Create => return create(args, s, bytes),
        Call::FromNewStart => {
            let closed = args.byte();
            let x = args.number();
            let y = args.number();
            let start = args.word();
            let tolerance = args.number();
            bf_view_from_new_start(s, closed, x, y, start, tolerance, args.number(), bytes)
        }
        Call::Mark => {
            let closed = args.byte();
            let mut space = [0; 256];
            let record = record(args, &mut space)?;
            bf_view_mark(s, closed, record, args.number(), bytes)
        }
        _ => {
            let mut space = [0; 256];
            let record = record(args, &mut space)?;
            match call {
                Call::Validate => bf_view_validate(s, record, args.number(), words, numbers),
                Call::Count => bf_view_count(s, record, words),
                Call::Get => bf_view_get(s, record, args.word(), numbers),
                Call::List => bf_view_list(s, record, numbers, words),
                Call::Reverse => bf_view_reverse(s, record, bytes),
                _ => {
                    let i = args.word();
                    bf_view_trim(s, record, i, args.word(), bytes)
                }
            }
        }
    };
    Ok(done?)
}
