// The outline of a drawing's text.
ghost use Rattle.dxf.specs.Outline.{outline_of};
ghost use Rattle.lent.specs.Lent.{both, done, BothAnswered};
ghost use Rattle.lent.specs.Values.{drawn_values};

use lent::give_drawing;
use real::Refusal;

// The numbers in threes; how many vertices, and 1 for closed or 0. 13, 3, 1, 8.
pub fn bf_dxf_outline(text: &[u8], out: &mut [f64], whole: &mut [u64]) -> Result<(), Refusal>
    ensures { BothAnswered drawn_values (outline_of text.now) (both whole.old out.old) (done result) (both whole.new out.new) }
{
    give_drawing(text, out, whole)
}
