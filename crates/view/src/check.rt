// The checks that the view calls share, in document 01's order of refusals.
ghost use Rattle.std.specs.Prelude.{◌≡◌, ◌&&◌, ltb};
ghost use Rattle.real.specs.Reply.{reply};
ghost use Rattle.plane.specs.Grade.{double};
ghost use Rattle.view.specs.Outline.{numbers_ok};
ghost use Rattle.view.specs.Record.{record_ok, even_bits};
ghost use Rattle.view.specs.Check.{pass, place_of, check_of, even_of};

use crate::outline::{serves_views, vertices_in_range};
use crate::view_data::PlineViewData;
use plane::{bulge_in_range, point_in_range, vertex_in_range};
use real::{Refusal, bits};

// Two comparisons at once.
pub fn both_less(a: usize, b: usize, c: usize, d: usize) -> bool
    ensures { result ≡ (ltb a b && ltb c d) }
{
    a < b && c < d
}

// Whether the record's numbers are in range.
pub fn record_in_range(d: PlineViewData) -> bool
    ensures { result ≡ record_ok double d }
{
    let v = d.updated_start;
    let p = d.end_point;
    vertex_in_range(v) && (bulge_in_range(d.updated_end_bulge) && point_in_range(p))
}

// Whether offset and start lie in the outline.
pub fn check_place(source: &[f64], d: PlineViewData) -> Result<(), Refusal>
    ensures { reply result ≡ place_of source.now d pass }
{
    let count = source.len() / 3;
    let offset = d.end_index_offset;
    let start = d.start_index;
    if offset > count {
        return Err(Refusal::BadOffset);
    }
    if start >= count {
        return Err(Refusal::BadIndex);
    }
    Ok(())
}

// Whether every number of an outline and a record is in range.
pub fn numbers_in_range(source: &[f64], d: PlineViewData) -> bool
    ensures { result ≡ (numbers_ok double source.now && record_ok double d) }
{
    vertices_in_range(source) && record_in_range(d)
}

// What every view call checks first, but lookup by position and validation.
pub fn check_view(source: &[f64], d: PlineViewData) -> Result<(), Refusal>
    ensures { reply result ≡ check_of double source.now d pass }
{
    if !serves_views(source) {
        return Err(Refusal::BadOutline);
    }
    if !numbers_in_range(source, d) {
        return Err(Refusal::BadNumber);
    }
    check_place(source, d)
}

// What reversal and trim check first.
pub fn check_even(source: &[f64], d: PlineViewData) -> Result<(), Refusal>
    ensures { reply result ≡ even_of double source.now d pass }
{
    check_view(source, d)?;
    if !has_even_bulges(d) {
        return Err(Refusal::UnevenBulges);
    }
    Ok(())
}

// Whether a record with offset 0 has bulges of equal bits.
pub fn has_even_bulges(d: PlineViewData) -> bool
    ensures { result ≡ even_bits double d }
{
    let offset = d.end_index_offset;
    if offset != 0 {
        return true;
    }
    let v = d.updated_start;
    bits(v.bulge) == bits(d.updated_end_bulge)
}
