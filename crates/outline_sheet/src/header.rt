// A sheet's first 16 bytes.
ghost use Rattle.std.specs.Prelude.{◌≡◌, ◌≤◌};
ghost use Rattle.plane.specs.Range.{most_vertices};
ghost use Rattle.outline_sheet.specs.Sheet as spec;

use job::{HEADER_BYTES, VERTEX_BYTES};

const VERSION: u16 = 1;

// The flags have bit 0 for a closed outline. There are no views, and they begin behind the vertices.
pub(crate) fn header(vertices: usize, closed: bool) -> [u8; HEADER_BYTES]
    requires { vertices ≤ most_vertices }
    ensures { result ≡ spec.header_bytes vertices closed }
{
    let views_at = HEADER_BYTES + VERTEX_BYTES * vertices;
    let mut bytes = [0; HEADER_BYTES];
    bytes[..2].copy_from_slice(&VERSION.to_le_bytes());
    bytes[2..4].copy_from_slice(&u16::from(closed).to_le_bytes());
    bytes[4..6].copy_from_slice(&(vertices as u16).to_le_bytes());
    bytes[8..12].copy_from_slice(&(HEADER_BYTES as u32).to_le_bytes());
    bytes[12..].copy_from_slice(&(views_at as u32).to_le_bytes());
    bytes
}
