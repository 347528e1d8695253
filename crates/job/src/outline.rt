// The outline in a sheet's bytes: three f64 for each vertex, from byte 16 on.
ghost use Rattle.std.specs.Prelude.{◌≡◌, ◌++◌, ◌*◌, ◌<◌, ◌≤◌, length, drop};
ghost use Rattle.job.specs.Outline.{vertex_in_of};
ghost use Rattle.job.specs.Sheet as spec;

use crate::header::Sheet;
use crate::size::{HEADER_BYTES, VERTEX_BYTES};
use plane::{PlineVertex, vertex_in_range};
use record::float_at;

impl Sheet<'_> {
    // Vertex k.
    pub(crate) fn vertex(&self, k: usize) -> PlineVertex
        requires { k < self.now.header.vertices }
        ensures { result ≡ vertex_in_of self.now.bytes.now k }
    {
        let at = HEADER_BYTES + VERTEX_BYTES * k;
        PlineVertex {
            x: float_at(self.bytes, at),
            y: float_at(self.bytes, at + 8),
            bulge: float_at(self.bytes, at + 16),
        }
    }

    // Whether each vertex is in range.
    pub(crate) fn vertices_are_sound(&self) -> bool
        ensures { result ≡ spec.vertices_ok self.now.bytes.now }
    {
        (0..self.header.vertices).all(|k| vertex_in_range(self.vertex(k)))
    }

    // Decodes the outline into the buffer's start.
    pub(crate) fn decode(&self, out: &mut [f64])
        requires { 3 * self.now.header.vertices ≤ length out.old }
        ensures { out.new ≡ spec.outline_of self.now.bytes.now ++ drop (3 * self.now.header.vertices) out.old }
    {
        for i in 0..3 * self.header.vertices {
            out[i] = float_at(self.bytes, HEADER_BYTES + 8 * i);
        }
    }
}
