// The roots that the whole-number root starts from.
ghost use Rattle.std.specs.Prelude.{◌≡◌, ◌+◌, ◌*◌, ◌^◌, ◌<◌};
ghost use Rattle.real.specs.Root.{isqrt};

// The roots of (32 + i) * 2^23, rounded down. A constant array is written to the stack where it is
// used, so the entries are narrow, and two are read at once.
const ROOTS: [u16; 97] = [
    16384, 16638, 16888, 17134, 17377, 17617, 17854, 18087, 18317, 18545, 18770, 18992, 19211,
    19429, 19643, 19856, 20066, 20274, 20480, 20683, 20885, 21085, 21283, 21479, 21673, 21866,
    22057, 22246, 22434, 22620, 22805, 22988, 23170, 23350, 23529, 23707, 23883, 24058, 24232,
    24404, 24576, 24746, 24914, 25082, 25249, 25415, 25579, 25742, 25905, 26066, 26227, 26386,
    26545, 26702, 26859, 27014, 27169, 27323, 27476, 27629, 27780, 27930, 28080, 28229, 28377,
    28525, 28672, 28817, 28963, 29107, 29251, 29394, 29536, 29678, 29819, 29959, 30099, 30238,
    30376, 30514, 30651, 30788, 30924, 31059, 31194, 31328, 31461, 31595, 31727, 31859, 31990,
    32121, 32251, 32381, 32510, 32639, 32768,
];

// The roots of (32 + i) * 2^23 and of the next such number.
pub fn tabled(i: usize) -> (u64, u64)
    requires { i < 96 }
    ensures here { result.0 ≡ isqrt ((32 + i) * 2 ^ 23) }
    ensures next { result.1 ≡ isqrt ((32 + (i + 1)) * 2 ^ 23) }
{
    let t = ROOTS;
    (u64::from(t[i]), u64::from(t[i + 1]))
}
