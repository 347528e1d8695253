// The outline of a drawing's text, for C.
ghost use Rattle.dxf.specs.Outline.{outline_of};
ghost use Rattle.lent.specs.Lent.{both, BothAnswered};
ghost use Rattle.lent.specs.Values.{drawn_values};

use bisquefern::code;

// The numbers in threes; how many vertices, and 1 for closed or 0. 13, 3, 1, 8.
#[unsafe(no_mangle)]
pub extern "C" fn bf_dxf_outline(text: &[u8], out: &mut [f64], whole: &mut [u64]) -> u8
    ensures { BothAnswered drawn_values (outline_of text.now) (both whole.old out.old) result (both whole.new out.new) }
{
    code(bisquefern::bf_dxf_outline(text, out, whole))
}
