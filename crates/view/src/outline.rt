// An outline: vertices lent as f64 in threes x, y, bulge.
ghost use Rattle.std.specs.Prelude.{◌≡◌, ◌<◌, ◌≤◌};
ghost use Rattle.plane.specs.Grade.{double};
ghost use Rattle.plane.specs.Range.{most_vertices};
ghost use Rattle.lists.specs.View.{wrapped};
ghost use Rattle.view.specs.Outline.{vertex_value, count_of, vertex_past_of, viewable, numbers_ok};
ghost use Rattle.view.specs.Needs.{Wraps, Numbers};

use plane::{PlineVertex, outline_is_whole, vertex_in_range};

// Vertex k of a slice.
fn vertex_at(source: &[f64], k: usize) -> PlineVertex
    requires { k < count_of source.now }
    ensures { result ≡ vertex_value source.now k }
{
    let at = 3 * k;
    PlineVertex {
        x: source[at],
        y: source[at + 1],
        bulge: source[at + 2],
    }
}

// An outline that is not too long.
#[derive(Clone, Copy)]
pub struct Outline<'a> {
    pub numbers: &'a [f64],
    ghost few: { count_of numbers.now ≤ most_vertices },
}

impl<'a> Outline<'a> {
    // How many vertices it has.
    pub fn vertex_count(self) -> usize
        ensures { result ≡ count_of self.entry.numbers.now }
    {
        self.numbers.len() / 3
    }

    // Vertex k.
    pub fn vertex(self, k: usize) -> PlineVertex
        requires { k < count_of self.numbers.now }
        ensures { result ≡ vertex_value self.entry.numbers.now k }
    {
        vertex_at(self.numbers, k)
    }

    // The vertex number that lies `offset` places past `start`.
    pub fn fwd_wrapping_index(self, start: usize, offset: usize) -> usize
        requires { Wraps start offset (count_of self.numbers.now) }
        ensures { Numbers (wrapped start offset (count_of self.entry.numbers.now)) (count_of self.entry.numbers.now) result }
    {
        let count = self.vertex_count();
        let k = start + offset;
        if k >= count { k - count } else { k }
    }

    // The vertex that lies `steps` places past vertex k, wrapping.
    pub fn vertex_past(self, k: usize, steps: usize) -> PlineVertex
        requires { Wraps k steps (count_of self.numbers.now) }
        ensures { result ≡ vertex_past_of self.entry.numbers.now k steps }
    {
        self.vertex(self.fwd_wrapping_index(k, steps))
    }
}

// Whether a view can be over a slice: whole vertices, two or more of them and not too many.
pub fn serves_views(source: &[f64]) -> bool
    ensures { result ≡ viewable source.now }
{
    outline_is_whole(source) && source.len() / 3 >= 2
}

// Whether every vertex of an outline is in range.
pub fn vertices_in_range(source: &[f64]) -> bool
    ensures { result ≡ numbers_ok double source.now }
{
    for k in 0..source.len() / 3 {
        if !vertex_in_range(vertex_at(source, k)) {
            return false;
        }
    }
    true
}
