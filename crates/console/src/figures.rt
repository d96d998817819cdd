// A float in figures that a person reads: a whole part, a point and up to six digits, with no zeros at the end. A
// number that is too small or too large for that is written with a power of ten behind it. What each function writes
// is stated in specs/Figures.antt.
ghost use Rattle.std.specs.Prelude.{◌≡◌};
ghost use Rattle.text.specs.Digits.{digits};
ghost use Rattle.text.specs.Writing.{Writes};
ghost use Rattle.console.specs.Figures.{without_zeros, fraction_texts, seconds_texts, frame_texts, whole_part, rounded, plain_texts, divided, multiplied, scaled_texts, magnitude_texts, figure_texts, vector_texts};
ghost use Rattle.console.specs.Steps.{Computes, stepped};

use geometry::vector3::Vector3;
use text::Writer;

// From a millionth to below here a number is written as it is. The whole part of such a number is exact.
const LARGE: f64 = 1e15;

const SMALL: f64 = 1e-6;

// What is written before a power of ten lies between these two, which six digits round to 1 and to 10.
const LOW: f64 = 0.99999995;

const HIGH: f64 = 9.9999995;

// More steps than there are powers of ten from 1 to the smallest float, or to the largest.
const STEPS: u64 = 400;

// The last `count` digits of a number, less the zeros at the end: a number, and how many of its last digits they are.
fn without_zeros(number: u64, count: usize) -> (u64, usize)
    ensures { without_zeros (digits 10 count number) ≡ digits 10 result.1 result.0 }
{
    let mut rest = number;
    for left in (1..=count).rev() {
        if rest % 10 != 0 {
            return (rest, left);
        }
        rest /= 10;
    }
    (rest, 0)
}

// The last `count` digits of a number behind a point, less the zeros at the end; nothing where all are zeros.
#[tactic(auto, using(text::proofs::Behind::written_in_turn, crate::proofs::Turns::append_in_turn, crate::proofs::Decimals::behind_point), unfolding(crate::specs::Figures::fraction_texts, text::specs::Digits::digits))]
fn put_fraction(out: &mut Writer<'_>, number: u64, count: usize)
    ensures { Writes out.old out.new (fraction_texts count number) }
{
    let (rest, left) = without_zeros(number, count);
    if left > 0 {
        out.write_bytes(b".");
        out.write_last_digits(rest, left);
    }
}

// The whole part, and 0 where the number is below 0 or from 2^63 on.
fn whole_part(x: f64) -> u64
    ensures { result ≡ whole_part x }
{
    if x > -1.0 && x < 9223372036854775808.0 {
        std::num::truncating_f64_to_u64(x)
    } else {
        0
    }
}

// The whole part and the nearest millionths, a half going up. A million of them is carried.
fn rounded(x: f64) -> (u64, u64)
    ensures { result ≡ rounded x }
{
    let whole = whole_part(x);
    let fraction = x - std::num::nearest_u64_to_f64(whole);
    let millionths = whole_part(fraction * 1000000.0 + 0.5);
    if millionths < 1000000 {
        (whole, millionths)
    } else {
        (whole + 1, 0)
    }
}

// A number from 0 on without a power of ten.
#[tactic(auto, using(text::proofs::Behind::written_in_turn, crate::proofs::Turns::append_in_turn), unfolding(crate::specs::Figures::plain_texts))]
fn put_plain(out: &mut Writer<'_>, x: f64)
    ensures { Writes out.old out.new (plain_texts x) }
{
    let (whole, millionths) = rounded(x);
    out.write_number(whole);
    put_fraction(out, millionths, 6);
}

// A number taken on step by step until it is near enough, and how many steps that takes.
fn scaled<N: Fn(f64) -> bool, S: Fn(f64) -> f64>(x: f64, near: N, step: S) -> (f64, u64)
    requires near_callable { N.IsAlwaysCallable near }
    requires step_callable { S.IsAlwaysCallable step }
    ensures { (h : _) (g : _) → Computes (N.post near) h → Computes (S.post step) g → result ≡ stepped h g 400 x 0 }
{
    let mut number = x;
    for power in 0..STEPS {
        if near(number) {
            return (number, power);
        }
        number = step(number);
    }
    (number, STEPS)
}

// A large number divided by ten.
fn divided(x: f64) -> (f64, u64)
    ensures { result ≡ divided 400 x 0 }
{
    scaled(x, |number| number < HIGH, |number| number / 10.0)
}

// A small number multiplied by ten.
fn multiplied(x: f64) -> (f64, u64)
    ensures { result ≡ multiplied 400 x 0 }
{
    scaled(x, |number| LOW <= number, |number| number * 10.0)
}

// A number, the sign of a power of ten, and the power.
fn put_scaled(out: &mut Writer<'_>, scaled: (f64, u64), sign: &[u8])
    ensures { Writes out.old out.new (scaled_texts sign.now scaled) }
{
    let (number, power) = scaled;
    put_plain(out, number);
    out.write_bytes(sign);
    out.write_number(power);
}

// A number from 0 on.
fn put_magnitude(out: &mut Writer<'_>, x: f64)
    ensures { Writes out.old out.new (magnitude_texts x) }
{
    if x == 0.0 {
        put_plain(out, x);
    } else if x < SMALL {
        put_scaled(out, multiplied(x), b"e-");
    } else if x < LARGE {
        put_plain(out, x);
    } else if libm::float::is_finite(x) {
        put_scaled(out, divided(x), b"e");
    } else {
        out.write_bytes(b"infinity");
    }
}

// Any float.
#[tactic(auto, using(text::proofs::Behind::written_in_turn, crate::proofs::Turns::append_in_turn), unfolding(crate::specs::Figures::figure_texts))]
pub fn put_figure(out: &mut Writer<'_>, x: f64)
    ensures { Writes out.old out.new (figure_texts x) }
{
    if x.is_nan() {
        out.write_bytes(b"not a number");
    } else if x < 0.0 {
        out.write_bytes(b"-");
        put_magnitude(out, -x);
    } else {
        put_magnitude(out, x);
    }
}

// Nanoseconds in seconds: exact, with up to nine digits behind the point.
#[tactic(auto, using(text::proofs::Behind::written_in_turn, crate::proofs::Turns::append_in_turn), unfolding(crate::specs::Figures::seconds_texts))]
pub(crate) fn put_seconds(out: &mut Writer<'_>, nanos: u64)
    ensures { Writes out.old out.new (seconds_texts nanos) }
{
    out.write_number(nanos / 1000000000);
    put_fraction(out, nanos, 9);
    out.write_bytes(b" s");
}

// Three figures with a space between them.
#[tactic(auto, using(text::proofs::Behind::written_in_turn, crate::proofs::Turns::append_in_turn), unfolding(crate::specs::Figures::vector_texts))]
pub fn put_vector(out: &mut Writer<'_>, v: Vector3)
    ensures { Writes out.old out.new (vector_texts v) }
{
    put_figure(out, v.x);
    out.write_bytes(b" ");
    put_figure(out, v.y);
    out.write_bytes(b" ");
    put_figure(out, v.z);
}

// A frame by its number.
#[tactic(auto, using(text::proofs::Behind::written_in_turn, crate::proofs::Turns::append_in_turn), unfolding(crate::specs::Figures::frame_texts))]
pub(crate) fn put_frame(out: &mut Writer<'_>, frame: u64)
    ensures { Writes out.old out.new (frame_texts frame) }
{
    out.write_bytes(b"frame ");
    out.write_number(frame);
}
