// A record: a view's 64 bytes of a sheet.
ghost use Rattle.std.specs.Prelude.{◌≡◌, length};
ghost use Rattle.real.specs.Reply.{reply};
ghost use Rattle.text.specs.Wrote.{Piece};
ghost use Rattle.record.specs.Record as spec;

use crate::bytes::{float_at, le32, put_number, put32};
use plane::{PlineVertex, Vector2};
use real::Refusal;
use view::PlineViewData;

// Where a record's fields begin, and how many bytes it has.
const START_AT: usize = 0;

const OFFSET_AT: usize = 4;

const FIRST_AT: usize = 8;

const END_BULGE_AT: usize = 32;

const END_AT: usize = 40;

const DIRECTION_AT: usize = 56;

const CUT_NUMBER_AT: usize = 60;

pub const RECORD_BYTES: usize = 64;

// No u32 reaches it.
const WORD_LIMIT: usize = 0x1_0000_0000;

// Whether the direction is 0 or 1.
pub fn record_is_sound(bytes: &[u8]) -> bool
    ensures { result ≡ spec.fields_ok bytes.now }
{
    le32(bytes, DIRECTION_AT) <= 1
}

// What a record's bytes say.
pub fn record_of(bytes: &[u8]) -> PlineViewData
    ensures { result ≡ spec.record_value bytes.now }
{
    PlineViewData {
        start_index: le32(bytes, START_AT),
        end_index_offset: le32(bytes, OFFSET_AT),
        updated_start: PlineVertex {
            x: float_at(bytes, FIRST_AT),
            y: float_at(bytes, FIRST_AT + 8),
            bulge: float_at(bytes, FIRST_AT + 16),
        },
        updated_end_bulge: float_at(bytes, END_BULGE_AT),
        end_point: Vector2 {
            x: float_at(bytes, END_AT),
            y: float_at(bytes, END_AT + 8),
        },
        inverted_direction: le32(bytes, DIRECTION_AT) == 1,
        cut_number: le32(bytes, CUT_NUMBER_AT) as u32,
    }
}

// The record of 64 bytes.
pub fn record_from_bytes(bytes: &[u8]) -> Result<PlineViewData, Refusal>
    ensures { reply result ≡ spec.record_from bytes.now }
{
    if bytes.len() != RECORD_BYTES {
        return Err(Refusal::BadSheet);
    }
    if !record_is_sound(bytes) {
        return Err(Refusal::BadRecord);
    }
    Ok(record_of(bytes))
}

fn put_vertex(out: &mut [u8], at: usize, v: PlineVertex) -> usize
    ensures { Piece out.old at (spec.vertex_bytes v) out.new result }
{
    let a = put_number(out, at, v.x);
    let b = put_number(out, a, v.y);
    put_number(out, b, v.bulge)
}

fn put_point(out: &mut [u8], at: usize, p: Vector2) -> usize
    ensures { Piece out.old at (spec.point_bytes p) out.new result }
{
    let a = put_number(out, at, p.x);
    put_number(out, a, p.y)
}

// The start index and the offset.
fn put_place(out: &mut [u8], at: usize, start: usize, offset: usize) -> usize
    ensures { Piece out.old at (spec.place_bytes start offset) out.new result }
{
    let a = put32(out, at, start);
    put32(out, a, offset)
}

// The direction and the cut number.
fn put_end(out: &mut [u8], at: usize, inverted: bool, cut_number: u32) -> usize
    ensures { Piece out.old at (spec.end_bytes inverted cut_number) out.new result }
{
    let a = put32(out, at, usize::from(inverted));
    put32(out, a, cut_number as usize)
}

fn put_record(out: &mut [u8], d: PlineViewData) -> usize
    ensures { Piece out.old 0 (spec.record_bytes d) out.new result }
{
    let a = put_place(out, 0, d.start_index, d.end_index_offset);
    let b = put_vertex(out, a, d.updated_start);
    let c = put_number(out, b, d.updated_end_bulge);
    let e = put_point(out, c, d.end_point);
    put_end(out, e, d.inverted_direction, d.cut_number)
}

// Writes the 64 bytes of a record from the buffer's start, and answers how many. 5, 4, 8.
pub fn record_to_bytes(d: PlineViewData, out: &mut [u8]) -> Result<usize, Refusal>
    ensures { (reply result ≡ spec.record_to d (length out.old)) × (out.new ≡ spec.record_buffer d out.old) }
{
    let offset = d.end_index_offset;
    if offset >= WORD_LIMIT {
        return Err(Refusal::BadOffset);
    }
    let start = d.start_index;
    if start >= WORD_LIMIT {
        return Err(Refusal::BadIndex);
    }
    if out.len() < RECORD_BYTES {
        return Err(Refusal::NoRoom);
    }
    Ok(put_record(out, d))
}
