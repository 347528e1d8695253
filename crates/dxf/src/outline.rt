// An outline read from the text of a DXF file.
ghost use Rattle.std.specs.Prelude.{◌≡◌, ◌≤◌, ◌*◌, length};
ghost use Rattle.real.specs.Reply.{reply};
ghost use Rattle.plane.specs.Range.{most_vertices};
ghost use Rattle.dxf.specs.Entity as entity;
ghost use Rattle.dxf.specs.State.{Holds};
ghost use Rattle.dxf.specs.Outline as spec;

use crate::entity::read;
use crate::state::{OUTLINE_NUMBERS, State};
use plane::MOST_VERTICES;
use real::Refusal;
use view::vertices_in_range;

// How many vertices the outline has, and whether it is closed.
#[derive(Clone, Copy)]
pub struct DxfOutline {
    pub vertices: usize,
    pub closed: bool,
}

// Judges what has been read, past the vertex limit, and hands it over.
fn hand_over(numbers: &[f64], closed: bool, out: &mut [f64]) -> Result<DxfOutline, Refusal>
    requires { length numbers.now ≤ 3 * most_vertices }
    ensures { spec.Answers (spec.judged numbers.now closed) result out.old out.new }
{
    if !vertices_in_range(numbers) {
        return Err(Refusal::BadNumber);
    }
    if numbers.len() > out.len() {
        return Err(Refusal::NoRoom);
    }
    out[..numbers.len()].copy_from_slice(numbers);
    Ok(DxfOutline {
        vertices: numbers.len() / 3,
        closed,
    })
}

// The same, of what has been read into a buffer for the largest outline.
fn finish(s: State, read: &[f64; OUTLINE_NUMBERS], out: &mut [f64]) -> Result<DxfOutline, Refusal>
    ensures { (m : entity.Seen) → Holds s read.now m → spec.Answers (spec.judged m.numbers m.closed) result out.old out.new }
{
    if s.vertices > MOST_VERTICES {
        return Err(Refusal::BadOutline);
    }
    hand_over(&read[..3 * s.vertices], s.closed, out)
}

// Reads the first LWPOLYLINE of a text into the buffer's start. 13, 3, 1, 8.
pub fn dxf_outline(text: &[u8], out: &mut [f64]) -> Result<DxfOutline, Refusal>
    ensures { (reply result ≡ spec.outline_to text.now (length out.old)) × (out.new ≡ spec.outline_buffer text.now out.old) }
{
    let mut numbers = [0.0; OUTLINE_NUMBERS];
    let state = read(text, &mut numbers)?;
    finish(state, &numbers, out)
}
