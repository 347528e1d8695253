// The rows of a list.
ghost use Rattle.std.specs.Prelude.{◌*◌, ◌≤◌, length};
ghost use Rattle.text.specs.Wrote.{Piece};
ghost use Rattle.job.specs.Rows as spec;

use text::{put_byte, put_decimal, put_float};

// A vertex's line.
fn put_row(out: &mut [u8], at: usize, k: usize, x: f64, y: f64, bulge: f64) -> usize
    ensures { Piece out.old at (spec.row k (spec.vert x y bulge)) out.new result }
{
    let a = put_decimal(out, at, k as u64);
    let b = put_float(out, a, x);
    let c = put_float(out, b, y);
    let d = put_float(out, c, bulge);
    put_byte(out, d, b'\n')
}

// The lines of the first n vertices of a list in threes.
pub(crate) fn put_rows(out: &mut [u8], at: usize, list: &[f64], n: usize) -> usize
    requires { 3 * n ≤ length list.now }
    ensures { Piece out.old at (spec.rows list.now n) out.new result }
{
    let (vertices, _) = list.as_chunks::<3>();
    let mut e = at;
    for (k, v) in vertices[..n].iter().enumerate() {
        e = put_row(out, e, k, v[0], v[1], v[2]);
    }
    e
}
