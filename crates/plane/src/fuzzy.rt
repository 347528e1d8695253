// Fuzzy equality of two numbers, from document 01's working rules.
ghost use Rattle.std.specs.Prelude.{◌≡◌};
ghost use Rattle.plane.specs.Grade.{double};
ghost use Rattle.plane.specs.Vec.{near_of};

use real::magnitude;

// The tolerance of a fuzzy test that is handed none.
pub const FUZZ: f64 = 1e-8;

pub fn fuzzy_eq_eps(a: f64, b: f64, eps: f64) -> bool
    ensures { result ≡ near_of double a b eps }
{
    magnitude(a - b) < eps
}
