// IEEE 754's square root, by whole numbers as the project asks, and not by the processor's instruction (`f64::sqrt`).
ghost use Rattle.std.specs.Prelude.{◌≡◌, ◌+◌, ◌*◌, ◌^◌, ◌<◌, ◌≤◌};
ghost use Rattle.std.specs.Float.{binary64};
ghost use Rattle.std.specs.Float.Ieee.{of_bits};
ghost use Rattle.libm.specs.Sqrt.{root_units, sqrt, units_of};

use super::float::to_bits;

// A root in whole numbers, and what is left below the radicand: too little for a greater root.
#[derive(Clone, Copy)]
struct Digits {
    root: u64,
    rest: u64,
    ghost greatest: { rest ≤ 2 * root },
}

// significand * 2^exponent, in units of 2^-1126.
#[derive(Clone, Copy)]
struct Parts {
    significand: u64,
    exponent: u64,
    ghost full_width: { (2 ^ 52 ≤ significand) × (significand < 2 ^ 54) },
}

// n * 2^54, of which the whole root is taken.
#[derive(Clone, Copy)]
struct Radicand {
    n: u64,
    ghost in_range: { n < 2 ^ 54 },
}

impl Radicand {
    // The root, a binary digit at a time. At each turn root * root + rest * bit is the radicand.
    fn digit_by_digit(self) -> Digits
        ensures { result.root * result.root + result.rest ≡ self.n * 2 ^ 54 }
    {
        let mut root = 0u64;
        let mut rest = self.n;
        let mut bit = 0x40_0000_0000_0000u64;
        // No count: the digit's own bit tells when the last has been taken.
        while 1 < bit {
            bit /= 2;
            rest *= 2;
            let trial = root * 2 + bit;
            if trial <= rest {
                rest -= trial;
                root += bit;
            }
        }
        Digits { root, rest }
    }

    // Half the bits of n as an f64, less those of its least exponent, for n from 2^52.
    fn half_bits(self) -> u64
        ensures { result ≤ 2 ^ 53 }
    {
        if self.n < 0x20_0000_0000_0000 {
            self.n / 2
        } else {
            self.n / 4 + 0x8_0000_0000_0000
        }
    }

    // The whole root of n or one more, for n from 2^52: the reciprocal root, estimated by its bits, then
    // three of Newton's steps, with n/2 * y * y carried from one to the next. Only speed rests on it.
    fn upper_estimate(self) -> u64
        ensures { result < 2 ^ 52 }
    {
        let half = (self.n / 2) as f64;
        let y = f64::from_bits(0x3e56_ed21_02dc_bfda - self.half_bits());
        let a = half * y * y;
        let u = 1.5008789551163345 - a;
        let b = a * (u * u);
        let v = 1.5000005796762577 - b;
        let c = b * (v * v);
        let w = 1.5 - c;
        let root = half * (y * u * v) * (w * 2.00000000003);
        to_bits(root + 4503599627370495.5) % 0x10_0000_0000_0000
    }

    // The root, if `upper` is that of n, by one division.
    fn root_from(self, upper: u64) -> Digits
        requires { upper ≤ 2 ^ 27 }
        ensures { result.root * result.root + result.rest ≡ self.n * 2 ^ 54 }
    {
        let square = upper * upper;
        if upper < 0x400_0000 || self.n < square || upper * 2 < self.n - square {
            return self.digit_by_digit();
        }
        lower_digits(Digits {
            root: upper,
            rest: self.n - square,
        })
    }

    // The root: from the upper half of its digits where the estimate is right, and else digit by digit.
    fn root(self) -> Digits
        ensures { result.root * result.root + result.rest ≡ self.n * 2 ^ 54 }
    {
        let upper = self.upper_estimate();
        if 0x800_0000 < upper {
            return self.digit_by_digit();
        }
        if self.n < upper * upper {
            return self.root_from(upper - 1);
        }
        self.root_from(upper)
    }
}

// From the upper half of the root's digits, the lower half: a quotient, or one less where its square is
// more than is left.
fn lower_digits(upper: Digits) -> Digits
    requires { (2 ^ 26 ≤ upper.root) × (upper.root ≤ 2 ^ 27) }
    ensures { result.root * result.root + result.rest ≡ (upper.root * upper.root + upper.rest) * 2 ^ 54 }
{
    let lower = upper.rest * 0x400_0000 / upper.root;
    let left = upper.rest * 0x400_0000 % upper.root * 0x1000_0000;
    let root = upper.root * 0x800_0000 + lower;
    let square = lower * lower;
    if square <= left {
        return Digits {
            root,
            rest: left - square,
        };
    }
    Digits {
        root: root - 1,
        rest: left + (root * 2 - 1) - square,
    }
}

// The significand at its full 53 digits, and the exponent, of a positive finite value. A subnormal
// is brought to full width by its count of leading zeros.
fn split(bits: u64) -> Parts
    requires { (0 < bits) × (bits < 2047 * 2 ^ 52) }
    ensures { (result.significand < 2 ^ 53) × (result.exponent ≤ 2097) × (result.significand * 2 ^ result.exponent ≡ units_of bits * 2 ^ 52) }
{
    let field = bits / 0x10_0000_0000_0000;
    let digits = bits % 0x10_0000_0000_0000;
    if field == 0 {
        let spare = digits.leading_zeros() as u64 - 11;
        return Parts {
            significand: digits << spare,
            exponent: 52 - spare,
        };
    }
    Parts {
        significand: digits + 0x10_0000_0000_0000,
        exponent: field + 51,
    }
}

// The same number as significand * 4^exponent.
fn paired(p: Parts) -> Parts
    requires { (p.significand < 2 ^ 53) × (p.exponent ≤ 2097) }
    ensures { (result.exponent ≤ 1048) × (result.significand * 4 ^ result.exponent ≡ p.significand * 2 ^ p.exponent) }
{
    let exponent = p.exponent / 2;
    if p.exponent % 2 == 0 {
        return Parts {
            significand: p.significand,
            exponent,
        };
    }
    Parts {
        significand: p.significand * 2,
        exponent,
    }
}

// The bits of the root of a positive finite value, from its bits. The 54 digits of the root are
// rounded to 53: the last digit decides, since the root is never half way.
fn root_pattern(bits: u64) -> u64
    requires { (0 < bits) × (bits < 2047 * 2 ^ 52) }
    ensures { (result < 2047 * 2 ^ 52) × (of_bits binary64 result ≡ root_units binary64 (units_of bits)) }
{
    let p = paired(split(bits));
    let d = Radicand { n: p.significand }.root();
    (p.exponent + 485) * 0x10_0000_0000_0000 + (d.root / 2 + d.root % 2)
}

// The nearest f64 to the exact root. A zero gives itself, plus infinity itself, a NaN or anything
// below zero a NaN.
pub fn sqrt(x: f64) -> f64
    ensures { result ≡ sqrt x }
{
    if x.is_nan() || x == 0.0 || x == f64::INFINITY {
        return x;
    }
    if x < 0.0 {
        return f64::NAN;
    }
    f64::from_bits(root_pattern(x.to_bits()))
}
