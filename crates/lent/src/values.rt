// An answer's values in a lent buffer.
#![tactic(auto, unfolding(real::specs::Reply::and_then, crate::specs::Lent::code_of, crate::specs::Lent::held_by))]

ghost use Rattle.std.specs.Prelude.{List};
ghost use Rattle.real.specs.Reply.{Reply, reply, given};
ghost use Rattle.view.specs.Validation.{mark_case};
ghost use Rattle.lent.specs.Lent.{one, lent, done, Left};
ghost use Rattle.lent.specs.Values.{point_numbers, vertex_numbers, circle_numbers, box_numbers, split_numbers, flag_byte, mark_byte, record_lent};

use crate::write::write;
use plane::{PlineVertex, Vector2};
use real::Refusal;
use record::record_to_bytes;
use seg::{Bounds, Circle, SplitResult};
use view::{Mark, PlineViewData};

// What is written to a lent buffer, in front of what it held.
pub trait Lend {
    type Item: Copy;

    // The buffer with it, of the buffer before; or the refusal, and then nothing is written.
    ghost stored: { Self → List Self.Item → Reply (List Self.Item) };

    fn lend(self, out: &mut [Self::Item]) -> Result<(), Refusal>
        ensures { Left (given self) (λ a. stored a out.old) out.old (done result) out.new };
}

// A root.
impl Lend for f64 {
    type Item = f64;

    ghost stored = { λ x. lent (one x) };

    fn lend(self, out: &mut [f64]) -> Result<(), Refusal> {
        write(&[self], out)
    }
}

impl Lend for Vector2 {
    type Item = f64;

    ghost stored = { λ p. lent (point_numbers p) };

    fn lend(self, out: &mut [f64]) -> Result<(), Refusal> {
        write(&[self.x, self.y], out)
    }
}

impl Lend for PlineVertex {
    type Item = f64;

    ghost stored = { λ v. lent (vertex_numbers v) };

    fn lend(self, out: &mut [f64]) -> Result<(), Refusal> {
        write(&[self.x, self.y, self.bulge], out)
    }
}

impl Lend for Circle {
    type Item = f64;

    ghost stored = { λ c. lent (circle_numbers c) };

    fn lend(self, out: &mut [f64]) -> Result<(), Refusal> {
        write(&[self.radius, self.center.x, self.center.y], out)
    }
}

impl Lend for Bounds {
    type Item = f64;

    ghost stored = { λ b. lent (box_numbers b) };

    fn lend(self, out: &mut [f64]) -> Result<(), Refusal> {
        write(&[self.min_x, self.min_y, self.max_x, self.max_y], out)
    }
}

impl Lend for SplitResult {
    type Item = f64;

    ghost stored = { λ s. lent (split_numbers s) };

    fn lend(self, out: &mut [f64]) -> Result<(), Refusal> {
        let v1 = self.updated_start;
        let v2 = self.split_vertex;
        write(&[v1.x, v1.y, v1.bulge, v2.x, v2.y, v2.bulge], out)
    }
}

// 1 for true.
impl Lend for bool {
    type Item = u8;

    ghost stored = { λ b. lent (flag_byte b) };

    fn lend(self, out: &mut [u8]) -> Result<(), Refusal> {
        write(&[u8::from(self)], out)
    }
}

impl Lend for Mark {
    type Item = u8;

    ghost stored = { λ m. lent (mark_byte (mark_case m)) };

    fn lend(self, out: &mut [u8]) -> Result<(), Refusal> {
        match self {
            Mark::Cut => write(&[1], out),
            Mark::Hold => write(&[0], out),
        }
    }
}

// A count.
impl Lend for usize {
    type Item = u64;

    ghost stored = { λ n. lent (one n) };

    fn lend(self, out: &mut [u64]) -> Result<(), Refusal> {
        write(&[self as u64], out)
    }
}

// The record's 64 bytes.
impl Lend for PlineViewData {
    type Item = u8;

    ghost stored = { record_lent };

    fn lend(self, out: &mut [u8]) -> Result<(), Refusal> {
        record_to_bytes(self, out)?;
        Ok(())
    }
}

pub fn give<T: Lend>(answer: Result<T, Refusal>, out: &mut [T::Item]) -> Result<(), Refusal>
    ensures { Left (reply answer) (λ a. T.stored a out.old) out.old (done result) out.new }
{
    answer?.lend(out)
}
