// A view's list and its count in two lent buffers.
ghost use Rattle.lent.specs.Lent.{itself, both, done, BothAnswered};
ghost use Rattle.lent.specs.Values.{list_reply};

use crate::values::give;
use real::Refusal;
use view::PlineViewData;

// Either may be short; then nothing is written.
pub fn give_list(
    outline: &[f64],
    d: PlineViewData,
    out: &mut [f64],
    count: &mut [u64],
) -> Result<(), Refusal>
    ensures { BothAnswered itself (list_reply outline.now d) (both count.old out.old) (done result) (both count.new out.new) }
{
    if count.is_empty() {
        return give(d.vertex_count(outline), count);
    }
    give(d.list(outline, out), count)
}
