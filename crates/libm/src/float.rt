// Methods of f64 with a contract for every input, in the words of the definitions.
ghost use Rattle.std.specs.Prelude.{◌≡◌};
ghost use Rattle.std.specs.Float.{binary64};
ghost use Rattle.std.specs.Float.Ieee.{of_bits, to_bits};
ghost use Rattle.std.specs.Float.Ieee.Scale.{finite};
ghost use Rattle.libm.specs.Libm.{clamp};

use std::num::{f64_from_bits_with_nan, f64_to_bits_with_nan};

#[tactic(auto, using(crate::proofs::Finite::is_finite_finite))]
pub fn is_finite(x: f64) -> bool
    ensures { result ≡ finite x }
{
    x.is_finite()
}

// The bound that x passes, else x; a NaN passes neither. f64's own asks that low is at most high.
pub fn clamp(x: f64, low: f64, high: f64) -> f64
    ensures { result ≡ clamp x low high }
{
    if x < low {
        low
    } else if high < x {
        high
    } else {
        x
    }
}

// The bits of x. Which bits a NaN has is left open: it is given the quiet one's without a sign.
pub fn to_bits(x: f64) -> u64
    ensures { result ≡ to_bits binary64 x }
{
    f64_to_bits_with_nan(x)
}

// The value of 64 bits, of a NaN's too.
pub fn from_bits(bits: u64) -> f64
    ensures { result ≡ of_bits binary64 bits }
{
    f64_from_bits_with_nan(bits)
}
