// The crate's `PlineViewData`, with listing, reversal and trim.
ghost use Rattle.std.specs.Prelude.{◌≡◌, length};
ghost use Rattle.real.specs.Reply.{reply};
ghost use Rattle.plane.specs.Grade.{double};
ghost use Rattle.view.specs.Answers.{get_vertex_of, vertex_count_of, list_of, list_buffer, reverse_of, trim_of};

use crate::check::{both_less, check_even, check_place, check_view};
use crate::outline::{Outline, serves_views};
use crate::placed::PlacedView;
use plane::{PlineVertex, Vector2};
use real::Refusal;

#[derive(Clone, Copy)]
pub struct PlineViewData {
    // Number of the outline's segment that the view starts on.
    pub start_index: usize,
    // Steps from there to the segment that it ends on, wrapping.
    pub end_index_offset: usize,
    // First vertex of the view.
    pub updated_start: PlineVertex,
    // Bulge of the view's last segment.
    pub updated_end_bulge: f64,
    pub end_point: Vector2,
    pub inverted_direction: bool,
    // The paper ticket's number, 0 for none. Not the crate's: no answer but a record depends on it.
    pub cut_number: u32,
}

impl PlineViewData {
    // The vertex at a position of the view.
    pub fn get_vertex(self, source: &[f64], index: usize) -> Result<PlineVertex, Refusal>
        ensures { reply result ≡ get_vertex_of double source.now self index }
    {
        if !serves_views(source) {
            return Err(Refusal::BadOutline);
        }
        check_place(source, self)?;
        let offset = self.end_index_offset;
        if index >= offset + 2 {
            return Err(Refusal::BadIndex);
        }
        let outline = Outline { numbers: source };
        let view = PlacedView {
            outline,
            view: self,
        };
        if !view.lookup_in_range(index) {
            return Err(Refusal::BadNumber);
        }
        Ok(view.vertex(index))
    }

    // How many vertices the view has.
    pub fn vertex_count(self, source: &[f64]) -> Result<usize, Refusal>
        ensures { reply result ≡ vertex_count_of double source.now self }
    {
        check_view(source, self)?;
        let offset = self.end_index_offset;
        Ok(offset + 2)
    }

    // Writes all vertices of the view into a buffer, in threes, and answers how many.
    pub fn list(self, source: &[f64], out: &mut [f64]) -> Result<usize, Refusal>
        ensures { (reply result ≡ list_of double source.now self (length out.old)) × (out.new ≡ list_buffer double source.now self out.old) }
    {
        check_view(source, self)?;
        let offset = self.end_index_offset;
        let count = offset + 2;
        if out.len() < 3 * count {
            return Err(Refusal::NoRoom);
        }
        let outline = Outline { numbers: source };
        PlacedView {
            outline,
            view: self,
        }
        .write_list(out);
        Ok(count)
    }

    // The view turned round.
    pub fn reverse(self, source: &[f64]) -> Result<PlineViewData, Refusal>
        ensures { reply result ≡ reverse_of double source.now self }
    {
        check_even(source, self)?;
        Ok(PlineViewData {
            inverted_direction: !self.inverted_direction,
            ..self
        })
    }

    // Positions i to j of the view.
    pub fn trim(self, source: &[f64], i: usize, j: usize) -> Result<PlineViewData, Refusal>
        ensures { reply result ≡ trim_of double source.now self i j }
    {
        check_even(source, self)?;
        let offset = self.end_index_offset;
        if !both_less(i, j, j, offset + 2) {
            return Err(Refusal::BadTrim);
        }
        let outline = Outline { numbers: source };
        Ok(PlacedView {
            outline,
            view: self,
        }
        .trimmed(i, j))
    }
}
