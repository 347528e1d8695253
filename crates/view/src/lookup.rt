// A view's vertex by position: the crate's `get_vertex`, past its checks.
ghost use Rattle.std.specs.Prelude.{◌≡◌, ◌<◌, ◌&&◌};
ghost use Rattle.std.specs.Float.Ieee.{neg};
ghost use Rattle.plane.specs.Grade.{double};
ghost use Rattle.plane.specs.Vertex.{with_bulge_of};
ghost use Rattle.view.specs.Record.{vertices, forward_of, backward_of, record_vertex_of, record_ok, past_ok, turned_ok, reads_ok};
ghost use Rattle.view.specs.Outline.{count_of, vertex_value, vertex_past_of};
ghost use Rattle.view.specs.Needs.{Wraps, Inner};

use crate::check::record_in_range;
use crate::outline::Outline;
use crate::placed::PlacedView;
use plane::{PlineVertex, vertex_in_range};

// The vertex after vertex k, with minus the bulge of the segment between them.
fn turned_after(outline: Outline, k: usize) -> PlineVertex
    requires { k < count_of outline.numbers.now }
    ensures { result ≡ with_bulge_of (vertex_past_of outline.entry.numbers.now k 1) (neg (vertex_value outline.entry.numbers.now k).bulge) }
{
    let next = outline.vertex_past(k, 1);
    let from = outline.vertex(k);
    next.with_bulge(-from.bulge)
}

// Whether the vertex that lies `steps` past `start` is in range.
fn past_in_range(outline: Outline, start: usize, steps: usize) -> bool
    requires { Wraps start steps (count_of outline.numbers.now) }
    ensures { result ≡ past_ok double outline.entry.numbers.now start steps }
{
    vertex_in_range(outline.vertex_past(start, steps))
}

// Whether the vertices that position k of an inverted view reads are in range.
fn turned_in_range(outline: Outline, start: usize, offset: usize, k: usize) -> bool
    requires { Inner outline.numbers.now start offset k }
    ensures { result ≡ turned_ok double outline.entry.numbers.now start offset k }
{
    past_in_range(outline, start, offset + 1 - k)
        && (k == offset || past_in_range(outline, start, offset - k))
}

impl<'a> PlacedView<'a> {
    // Position k of the forward list.
    pub fn forward(self, k: usize) -> PlineVertex
        requires { k < vertices self.view }
        ensures { result ≡ forward_of double self.entry.outline.numbers.now self.entry.view k }
    {
        let PlacedView { outline, view: d } = self;
        let start = d.start_index;
        let offset = d.end_index_offset;
        if k == 0 {
            return d.updated_start;
        }
        if k < offset {
            return outline.vertex_past(start, k);
        }
        if k == offset {
            return outline
                .vertex_past(start, offset)
                .with_bulge(d.updated_end_bulge);
        }
        PlineVertex::from_vector2(d.end_point, 0.0)
    }

    // Position k, inverted.
    fn backward(self, k: usize) -> PlineVertex
        requires { k < vertices self.view }
        ensures { result ≡ backward_of double self.entry.outline.numbers.now self.entry.view k }
    {
        let PlacedView { outline, view: d } = self;
        let start = d.start_index;
        let offset = d.end_index_offset;
        if k == 0 {
            return PlineVertex::from_vector2(d.end_point, -d.updated_end_bulge);
        }
        if k < offset {
            return turned_after(outline, outline.fwd_wrapping_index(start, offset - k));
        }
        let u = d.updated_start;
        if k == offset {
            return outline
                .vertex_past(start, offset - k + 1)
                .with_bulge(-u.bulge);
        }
        u.with_bulge(0.0)
    }

    // Position k.
    pub fn vertex(self, k: usize) -> PlineVertex
        requires { k < vertices self.view }
        ensures { result ≡ record_vertex_of double self.entry.outline.numbers.now self.entry.view k }
    {
        if self.view.inverted_direction {
            self.backward(k)
        } else {
            self.forward(k)
        }
    }

    // Whether the source vertices that position k reads are in range.
    fn reads_in_range(self, k: usize) -> bool
        requires { k < vertices self.view }
        ensures { result ≡ reads_ok double self.entry.outline.numbers.now self.entry.view k }
    {
        let PlacedView { outline, view: d } = self;
        let start = d.start_index;
        let offset = d.end_index_offset;
        if k == 0 {
            return true;
        }
        if offset < k {
            return true;
        }
        if !d.inverted_direction {
            return past_in_range(outline, start, k);
        }
        turned_in_range(outline, start, offset, k)
    }

    // Whether every number that a lookup of position k reads is in range.
    pub fn lookup_in_range(self, k: usize) -> bool
        requires { k < vertices self.view }
        ensures { result ≡ (record_ok double self.entry.view && reads_ok double self.entry.outline.numbers.now self.entry.view k) }
    {
        record_in_range(self.view) && self.reads_in_range(k)
    }
}
