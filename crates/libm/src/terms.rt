// The steps of the arc cosine and of the sine: their fixed table, and the value that the arc cosine's
// 48 steps give.
ghost use Rattle.std.specs.Prelude.{◌≡◌, ◌-◌, ◌≤◌, Float};
ghost use Rattle.time.specs.Float.{one64};
ghost use Rattle.libm.specs.Libm.{acos_steps};
ghost use Rattle.libm.specs.Enclosure.{run, Within, Square, Bound, Encloses};

use super::float::to_bits;

// Two values that a third lies between.
#[derive(Clone, Copy)]
struct Bounds {
    low: f64,
    high: f64,
}

// (2k-1)^2 and 2k(2k+1), for k from 1 to 48
pub(crate) const TERMS: [(u16, u16); 48] = [
    (1, 6),
    (9, 20),
    (25, 42),
    (49, 72),
    (81, 110),
    (121, 156),
    (169, 210),
    (225, 272),
    (289, 342),
    (361, 420),
    (441, 506),
    (529, 600),
    (625, 702),
    (729, 812),
    (841, 930),
    (961, 1056),
    (1089, 1190),
    (1225, 1332),
    (1369, 1482),
    (1521, 1640),
    (1681, 1806),
    (1849, 1980),
    (2025, 2162),
    (2209, 2352),
    (2401, 2550),
    (2601, 2756),
    (2809, 2970),
    (3025, 3192),
    (3249, 3422),
    (3481, 3660),
    (3721, 3906),
    (3969, 4160),
    (4225, 4422),
    (4489, 4692),
    (4761, 4970),
    (5041, 5256),
    (5329, 5550),
    (5625, 5852),
    (5929, 6162),
    (6241, 6480),
    (6561, 6806),
    (6889, 7140),
    (7225, 7482),
    (7569, 7832),
    (7921, 8190),
    (8281, 8556),
    (8649, 8930),
    (9025, 9312),
];

// The steps from `from` down to `to`: of the lower value with the lower square, of the upper with the upper.
fn steps(squares: Bounds, from: usize, to: usize, start: Bounds) -> Bounds
    requires { (to ≤ from) × (from ≤ 48) }
    ensures { (result.low ≡ run (from - to) to squares.low start.low) × (result.high ≡ run (from - to) to squares.high start.high) }
{
    let Bounds { mut low, mut high } = start;
    for &(numerator, denominator) in TERMS[to..from].iter().rev() {
        let c = numerator as f64 / denominator as f64;
        low = 1.0 + squares.low * c * low;
        high = 1.0 + squares.high * c * high;
    }
    Bounds { low, high }
}

// Bounds of what the steps above k have given.
fn start(k: usize) -> Bounds
    requires { k ≤ 48 }
    ensures { Bound result.low × Bound result.high × ((least most : Float) → Square least → Square most → Encloses least most k result.low result.high) }
{
    let high = if k == 48 { 1.0 } else { 2.0 };
    Bounds { low: 1.0, high }
}

// Where to start, so that the bounds meet: each step brings them nearer to each other by as many
// binary digits as the square has zeros.
fn enough(square: f64) -> usize
    ensures { (8 ≤ result) × (result ≤ 48) }
{
    let bits = to_bits(square);
    if 0x3fe0_0000_0000_0000 <= bits {
        return 48;
    }
    let zeros = (0x3ff0_0000_0000_0000 - bits) / 0x1000_0000_0000;
    (13568 / zeros + 2).clamp(8, 48) as usize
}

// The bounds after the last step, from `near` about the square: a step keeps the order. The square itself is used in the last
// eight alone, so that the first ones need not wait for the root.
fn enclosed(square: f64, near: Bounds, k: usize) -> Bounds
    requires { Square near.low × Square near.high × Within near.low near.high square × (8 ≤ k) × (k ≤ 48) }
    ensures { Bound result.low × Bound result.high × Encloses square square 0 result.low result.high }
{
    let rough = steps(near, k, 8, start(k));
    let exactly = Bounds {
        low: square,
        high: square,
    };
    steps(exactly, 8, 0, rough)
}

// What the 48 steps give, with `near` about the square of z: bounds that meet have it between them.
pub(crate) fn acos_sum(z: f64, near: f64) -> f64
    ensures { result ≡ acos_steps 48 z one64 }
{
    let square = z * z;
    let around = Bounds {
        low: near * 0.9999999999999991,
        high: near * 1.0000000000000009,
    };
    if (8.673617379884035e-19 <= around.low)
        & (around.low <= square)
        & (square <= around.high)
        & (around.high <= 0.50390625)
    {
        let bounds = enclosed(square, around, enough(near));
        if bounds.high <= bounds.low {
            return bounds.low;
        }
    }
    let exactly = Bounds {
        low: square,
        high: square,
    };
    let one = Bounds {
        low: 1.0,
        high: 1.0,
    };
    steps(exactly, 48, 0, one).low
}
