// Square root, and the vertex from three numbers, for C.
ghost use Rattle.plane.specs.Grade.{double};
ghost use Rattle.plane.specs.From.{vertex_from};
ghost use Rattle.lent.specs.Lent.{Answered, RootAnswered};
ghost use Rattle.lent.specs.Values.{vertex_numbers};

use bisquefern::code;

// The square root of x. 1, 8.
#[unsafe(no_mangle)]
pub extern "C" fn bf_sqrt(x: f64, out: &mut [f64]) -> u8
    ensures { RootAnswered x out.old result out.new }
{
    code(bisquefern::bf_sqrt(x, out))
}

// The vertex of three numbers. 3, 1, 8.
#[unsafe(no_mangle)]
pub extern "C" fn bf_vertex(numbers: &[f64], out: &mut [f64]) -> u8
    ensures { Answered vertex_numbers (vertex_from double numbers.now) out.old result out.new }
{
    code(bisquefern::bf_vertex(numbers, out))
}
