// Elements with a zero: words, and floats, whose zero is +0.0. `Default` has no law that its value is the one whose bits are 0.
ghost use Rattle.std.specs.Prelude.{◌≡◌, ℕ, Bool, true, refl, eqb};
ghost use Rattle.std.specs.Float.{binary64};
ghost use Rattle.std.specs.Float.Ieee.{to_bits};
ghost use Rattle.std.proofs.Common.{rules};
ghost use Rattle.time.specs.Float.{zero64};
ghost use Rattle.buffer.specs.Row.{is_zero, is_zero64};

use std::num::f64_to_bits_with_nan;

pub trait Zero: Copy {
    ghost zero: { Self };

    ghost is_zero: { Self → Bool };

    ghost bits: { Self → ℕ };

    fn zero() -> Self
        ensures { result ≡ zero };

    fn bits(self) -> u64
        ensures { result ≡ bits self };

    // Zero is what has no bit set.
    ghost by_bits: { (x : Self) → is_zero x ≡ eqb (bits x) 0 };

    ghost zero_is_zero: { is_zero zero ≡ true };

    // A clone is the element itself.
    ghost infallible: { (x : Self) → Self.is_infallible x };

    ghost clones: { (x y : Self) → Self.is_clone x y → y ≡ x };
}

impl Zero for u64 {
    ghost zero = { 0 };

    ghost is_zero = { eqb 0 };

    ghost bits = { λ x. x };

    fn zero() -> u64 {
        0u64
    }

    fn bits(self) -> u64 {
        self
    }

    ghost by_bits = { Prim.search rules };

    ghost zero_is_zero = { refl };

    ghost infallible = { Prim.search rules };

    ghost clones = { Prim.search rules };
}

impl Zero for f64 {
    ghost zero = { zero64 };

    ghost is_zero = { is_zero };

    ghost bits = { to_bits binary64 };

    fn zero() -> f64 {
        0.0
    }

    fn bits(self) -> u64 {
        f64_to_bits_with_nan(self)
    }

    ghost by_bits = { λ x. refl };

    ghost zero_is_zero = { is_zero64 };

    ghost infallible = { Prim.search rules };

    ghost clones = { Prim.search rules };
}
