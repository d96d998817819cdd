// Arc cosine and sine, by document 01's steps.
ghost use Rattle.std.specs.Prelude.{◌≡◌};
ghost use Rattle.libm.specs.Libm.{acos, sin};

use super::root::sqrt;
use super::terms::{TERMS, acos_sum};

#[tactic(auto, unfolding(crate::specs::Libm::acos))]
pub fn acos(d: f64) -> f64
    ensures { result ≡ acos d }
{
    let near = (1.0 - d) / 2.0;
    let z = sqrt(near);
    2.0 * (z * acos_sum(z, near))
}

pub fn sin(a: f64) -> f64
    ensures { result ≡ sin a }
{
    let mut s = 1.0;
    for &(_, denominator) in TERMS[..10].iter().rev() {
        s = 1.0 - a * a / denominator as f64 * s;
    }
    a * s
}
