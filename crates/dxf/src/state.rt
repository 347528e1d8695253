// What has been read of an entity, and what each code does to it.
ghost use Rattle.std.specs.Prelude.{◌≡◌, List, ◌++◌, ◌∷◌, [], ◌+◌, ◌-◌, ◌*◌, ◌≤◌, ◌<◌, ◌&&◌, length, take, set, Float};
ghost use Rattle.plane.specs.Grade.{double};
ghost use Rattle.plane.specs.Range.{most_vertices};
ghost use Rattle.view.specs.Outline.{count_of};
ghost use Rattle.numeral.specs.Digits.{cap};
ghost use Rattle.dxf.specs.Entity as entity;
ghost use Rattle.dxf.specs.State as spec;

use numeral::{number, whole};
use plane::MOST_VERTICES;
use real::Refusal;

// The numbers of the largest outline.
pub const OUTLINE_NUMBERS: usize = 3 * MOST_VERTICES;

// The last 90; whether the last 70 is odd; the x of a 10 that waits for its 20; how many vertices there are.
#[derive(Clone, Copy, Default)]
pub struct State {
    pub count: Option<u64>,
    pub closed: bool,
    pub waits: Option<f64>,
    pub vertices: usize,
}

// Writes vertex n, with no bulge yet, where the buffer has room for it: past the vertex limit vertices are only counted.
fn put_vertex(out: &mut [f64; OUTLINE_NUMBERS], n: usize, x: f64, y: f64)
    ensures { n < most_vertices → take (3 * n + 3) out.new ≡ take (3 * n) out.old ++ (x ∷ y ∷ double.zero ∷ []) }
{
    if n < MOST_VERTICES {
        out[3 * n..3 * n + 3].copy_from_slice(&[x, y, 0.0]);
    }
}

// Writes the bulge of the last of n vertices.
fn put_bulge(out: &mut [f64; OUTLINE_NUMBERS], n: usize, z: f64)
    requires { 1 ≤ n }
    ensures { n ≤ most_vertices → take (3 * n) out.new ≡ set (take (3 * n) out.old) (3 * n - 1) z }
{
    if n <= MOST_VERTICES {
        out[3 * n - 1] = z;
    }
}

impl State {
    fn on_count(self, value: &[u8]) -> Result<State, Refusal>
        ensures { (a : List Float) (m : entity.Seen) → spec.Holds self a m → spec.Steps self (entity.count_step m value.now) result a }
    {
        let count = Some(whole(value)?);
        Ok(State { count, ..self })
    }

    fn on_closed(self, value: &[u8]) -> Result<State, Refusal>
        ensures { (a : List Float) (m : entity.Seen) → spec.Holds self a m → spec.Steps self (entity.closed_step m value.now) result a }
    {
        let closed = whole(value)? % 2 == 1;
        Ok(State { closed, ..self })
    }

    fn on_x(self, value: &[u8]) -> Result<State, Refusal>
        ensures { (a : List Float) (m : entity.Seen) → spec.Holds self a m → spec.Steps self (entity.x_step m value.now) result a }
    {
        let waits = Some(number(value)?);
        Ok(State { waits, ..self })
    }

    // The 20 that the 10 with x waits for.
    fn on_y(self, x: f64, value: &[u8], out: &mut [f64; OUTLINE_NUMBERS]) -> Result<State, Refusal>
        requires { self.vertices < cap }
        ensures { (m : entity.Seen) → spec.Holds self out.old m → spec.Steps self (entity.y_step m x value.now) result out.new }
    {
        let y = number(value)?;
        put_vertex(out, self.vertices, x, y);
        Ok(State {
            waits: None,
            vertices: self.vertices + 1,
            ..self
        })
    }

    fn on_bulge(self, value: &[u8], out: &mut [f64; OUTLINE_NUMBERS]) -> Result<State, Refusal>
        ensures { (m : entity.Seen) → spec.Holds self out.old m → spec.Steps self (entity.bulge_step m value.now) result out.new }
    {
        if self.vertices < 1 {
            return Err(Refusal::BadText);
        }
        put_bulge(out, self.vertices, number(value)?);
        Ok(self)
    }

    // A code with its value.
    pub(crate) fn step(
        self,
        code: u64,
        value: &[u8],
        out: &mut [f64; OUTLINE_NUMBERS],
    ) -> Result<State, Refusal>
        requires { self.vertices < cap }
        ensures { (m : entity.Seen) → spec.Holds self out.old m → spec.Steps self (entity.step_of m code value.now) result out.new }
    {
        match (self.waits, code) {
            (Some(x), 20) => self.on_y(x, value, out),
            (Some(_), _) => Err(Refusal::BadText),
            (None, 90) => self.on_count(value),
            (None, 70) => self.on_closed(value),
            (None, 10) => self.on_x(value),
            (None, 20) => Err(Refusal::BadText),
            (None, 42) => self.on_bulge(value, out),
            (None, _) => Ok(self),
        }
    }

    // Whether an entity may end so: no 10 waits, and the count is there and right.
    pub(crate) fn may_end(self) -> bool
        requires { self.vertices < cap }
        ensures { (a : List Float) (m : entity.Seen) → spec.Holds self a m → result ≡ (entity.settled m.waits && entity.counts m.count (count_of m.numbers)) }
    {
        self.waits.is_none() && self.count == Some(self.vertices as u64)
    }
}
