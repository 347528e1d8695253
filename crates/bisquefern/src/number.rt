// Square root, and the vertex from three numbers.
ghost use Rattle.plane.specs.Grade.{double};
ghost use Rattle.plane.specs.From.{vertex_from};
ghost use Rattle.lent.specs.Lent.{done, Answered, RootAnswered};
ghost use Rattle.lent.specs.Values.{vertex_numbers};

use lent::give;
use plane::vertex_from_slice;
use real::{Refusal, sqrt};

// The square root of x. 1, 8.
pub fn bf_sqrt(x: f64, out: &mut [f64]) -> Result<(), Refusal>
    ensures { RootAnswered x out.old (done result) out.new }
{
    give(sqrt(x), out)
}

// The vertex of three numbers. 3, 1, 8.
pub fn bf_vertex(numbers: &[f64], out: &mut [f64]) -> Result<(), Refusal>
    ensures { Answered vertex_numbers (vertex_from double numbers.now) out.old (done result) out.new }
{
    give(vertex_from_slice(numbers), out)
}
