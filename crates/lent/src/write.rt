// Values in front of a lent buffer.
ghost use Rattle.real.specs.Reply.{given};
ghost use Rattle.lent.specs.Lent.{itself, done, Answered};

use real::Refusal;

// Any count of values. A short buffer is refused.
pub(crate) fn write<T: Copy>(values: &[T], out: &mut [T]) -> Result<(), Refusal>
    ensures { Answered itself (given values.now) out.old (done result) out.new }
{
    if out.len() < values.len() {
        return Err(Refusal::NoRoom);
    }
    out[..values.len()].copy_from_slice(values);
    Ok(())
}
