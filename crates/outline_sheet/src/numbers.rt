// An outline's numbers, eight bytes each.
ghost use Rattle.text.specs.Wrote.{Piece};
ghost use Rattle.outline_sheet.specs.Sheet as spec;

use record::put_number;

pub(crate) fn put_numbers(out: &mut [u8], at: usize, numbers: &[f64]) -> usize
    ensures { Piece out.old at (spec.number_bytes numbers.now) out.new result }
{
    let mut e = at;
    for x in numbers {
        e = put_number(out, e, *x);
    }
    e
}
