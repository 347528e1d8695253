// A drawing's outline in two lent buffers: its numbers, and its vertex count with whether it is closed.
ghost use Rattle.dxf.specs.Outline.{outline_of};
ghost use Rattle.lent.specs.Lent.{both, done, BothAnswered};
ghost use Rattle.lent.specs.Values.{drawn_values};

use crate::write::write;
use dxf::dxf_outline;
use real::Refusal;

// Without a place for the words nothing is written, and the drawing's own refusals come before that of a short buffer.
pub fn give_drawing(text: &[u8], out: &mut [f64], whole: &mut [u64]) -> Result<(), Refusal>
    ensures { BothAnswered drawn_values (outline_of text.now) (both whole.old out.old) (done result) (both whole.new out.new) }
{
    if whole.len() < 2 {
        dxf_outline(text, &mut [])?;
        return Err(Refusal::NoRoom);
    }
    let d = dxf_outline(text, out)?;
    write(&[d.vertices as u64, u64::from(d.closed)], whole)
}
