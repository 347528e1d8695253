// A view's list in a lent buffer.
ghost use Rattle.std.specs.Prelude.{◌≡◌, ◌+◌, ◌*◌, ◌<◌, ◌≤◌, length};
ghost use Rattle.std.proofs.lemmas.List.Edits.{sets};
ghost use Rattle.plane.specs.Grade.{double};
ghost use Rattle.lists.specs.Plain.{numbers};
ghost use Rattle.view.specs.Outline.{vert_of};
ghost use Rattle.view.specs.Record.{needed};
ghost use Rattle.view.specs.Answers.{written};

use crate::placed::PlacedView;
use plane::PlineVertex;

// Stores a vertex as vertex k of a buffer in threes.
fn put(out: &mut [f64], k: usize, v: PlineVertex)
    requires { 3 * k + 2 < length out.old }
    ensures { out.new ≡ sets out.old (3 * k) (numbers (vert_of v)) }
{
    let at = 3 * k;
    out[at] = v.x;
    out[at + 1] = v.y;
    out[at + 2] = v.bulge;
}

impl<'a> PlacedView<'a> {
    // Writes the view's vertices, in threes, from the start of the buffer.
    pub fn write_list(self, out: &mut [f64])
        requires { needed self.view ≤ length out.old }
        ensures { out.new ≡ written double self.entry.outline.numbers.now self.entry.view out.old }
    {
        for k in 0..self.view.end_index_offset + 2 {
            put(out, k, self.vertex(k));
        }
    }
}
