// A float as people write it: `1`, `-0.25`, `6.1e-3`. Its digits and its power of ten are exact floats, so that one
// product or quotient of the two rounds the number once.
ghost use Rattle.std.specs.Prelude.{◌≡◌, ◌^◌, ◌≤◌, ◌<◌, false, Some, option_map, MatchOption};
ghost use Rattle.std.specs.Float.Ieee.Exact.{HasValue};
ghost use Rattle.text.specs.Decimal.{before, behind, digits_after, significand, exponent};
ghost use Rattle.text.specs.Decimal.{scaled as Decimal·scaled};
ghost use Rattle.text.specs.Decimal.{unsigned as Decimal·unsigned, decimal as Decimal·decimal};

use super::read::{digits, split_once};

// 10^0 to 10^22
const POWERS: [f64; 23] = [
    1e0, 1e1, 1e2, 1e3, 1e4, 1e5, 1e6, 1e7, 1e8, 1e9, 1e10, 1e11, 1e12, 1e13, 1e14, 1e15, 1e16,
    1e17, 1e18, 1e19, 1e20, 1e21, 1e22,
];

// The largest number of 15 digits: so many are exact in a float.
const LARGEST: u64 = 999999999999999;

// 10^k, exactly, up to 10^22.
fn power(k: u128) -> Option<f64>
    ensures { MatchOption result (22 < k) (λ p. (k ≤ 22) × HasValue p false (10 ^ k) 1) }
{
    if k > 22 {
        return None;
    }
    Some(POWERS[k as usize])
}

// The digits with their sign, exactly.
#[tactic(auto, using(crate::proofs::Exact::whole_float, crate::proofs::Exact::digits_value, crate::proofs::Exact::minus_value,),)]
fn signed(negative: bool, d: u64) -> f64
    requires { d < 10 ^ 15 }
    ensures { HasValue result negative d 1 }
{
    let x = d as f64;
    if negative { -x } else { x }
}

// The digits times 10^up / 10^down, where they are at most 15 and the power is from -22 to 22.
fn scaled(negative: bool, d: u64, up: u128, down: u128) -> Option<f64>
    ensures { result ≡ Decimal·scaled negative d up down }
{
    if d > LARGEST {
        return None;
    }
    let x = signed(negative, d);
    if up < down {
        Some(x / power(down - up)?)
    } else {
        Some(x * power(up - down)?)
    }
}

// The number that one or more digits are where they follow a number.
fn some_digits(word: &[u8], number: u64) -> Option<u64>
    ensures { result ≡ digits_after (Some number) word.now }
{
    if word.is_empty() {
        return None;
    }
    digits(word, 10, number)
}

// The digits before a point and behind it as one number, and how many stand behind it.
fn read_significand(word: &[u8]) -> Option<(u64, usize)>
    ensures { result ≡ significand (before 46 word.now) (behind 46 word.now) }
{
    let (whole, fraction) = split_once(word, b'.');
    let number = some_digits(whole, 0)?;
    let Some(fraction) = fraction else {
        return Some((number, 0));
    };
    Some((some_digits(fraction, number)?, fraction.len()))
}

// What stands behind an `e`: a whole number, with `-` or without a sign. It is up or down of 10^up / 10^down, and the other is 0.
fn read_exponent(text: &[u8]) -> Option<(u64, u64)>
    ensures { result ≡ exponent (Some text.now) }
{
    match text {
        [b'-', digits @ ..] => some_digits(digits, 0).map(|n| (0, n)),
        _ => some_digits(text, 0).map(|n| (n, 0)),
    }
}

// A decimal without its sign. The power of ten is the exponent less the digits behind the point.
fn unsigned(negative: bool, word: &[u8]) -> Option<f64>
    ensures { result ≡ Decimal·unsigned negative word.now }
{
    let (digits, exponent) = split_once(word, b'e');
    let (d, places) = read_significand(digits)?;
    let (up, down) = match exponent {
        Some(exponent) => read_exponent(exponent)?,
        None => (0, 0),
    };
    scaled(
        negative,
        d,
        u128::from(up),
        u128::from(down) + places as u128,
    )
}

// A decimal, with `-` if below zero.
pub(crate) fn decimal(word: &[u8]) -> Option<f64>
    ensures { result ≡ Decimal·decimal word.now }
{
    match word {
        [b'-', size @ ..] => unsigned(true, size),
        _ => unsigned(false, word),
    }
}
