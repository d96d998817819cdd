// What the words of a line stand for, and their bytes. `rest`, `first` and `read_byte` take a line and any place in it, and
// stay apart from `Words`, whose place is where the next word begins.
ghost use Rattle.std.specs.Prelude.{◌≡◌, ◌==◌, ◌+◌, ◌^◌, ◌≤◌, length, drop, Some, option_map, position};
ghost use Rattle.text.specs.Digits.{number_from, below};
ghost use Rattle.text.specs.Digits.{digit as Digits·digit};
ghost use Rattle.text.specs.Decimal.{before, behind};
ghost use Rattle.text.specs.Reading.{byte_at};
ghost use Rattle.text.specs.Reading.{bits as Reading·bits, float as Reading·float};

use super::decimal::decimal;

// The digit of a base up to 16 that a byte is. (`char::to_digit` would take capital letters too.)
fn digit(b: u8, base: u64) -> Option<u64>
    requires { base ≤ 16 }
    ensures { result ≡ below base (Some (Digits·digit b)) }
{
    let value = match b {
        b'0'..=b'9' => b - b'0',
        b'a'..=b'f' => b - b'a' + 10,
        _ => return None,
    };
    Some(u64::from(value)).filter(|d| *d < base)
}

// The number that a word's digits are where they follow a number.
#[tactic(auto, using(crate::proofs::Numbers::number_over))]
pub(crate) fn digits(word: &[u8], base: u64, number: u64) -> Option<u64>
    requires { base ≤ 16 }
    ensures { result ≡ below (2 ^ 64) (number_from base number word.now) }
{
    let mut value = number;
    for b in word {
        value = value.checked_mul(base)?.checked_add(digit(*b, base)?)?;
    }
    Some(value)
}

// The place of the first byte b.
fn place(word: &[u8], b: u8) -> Option<usize>
    ensures { result ≡ position (λ c. c == b) word.now }
{
    word.iter().position(|c| *c == b)
}

// What stands before the first byte b, or all, and what stands behind it.
#[tactic(auto, using(crate::proofs::Before::before_place, crate::proofs::Before::behind_place))]
pub fn split_once(word: &[u8], b: u8) -> (&[u8], Option<&[u8]>)
    ensures within { length result.0.now ≤ length word.now }
    ensures before { result.0.now ≡ before b word.now }
    ensures behind { option_map (λ r. r.now) result.1 ≡ behind b word.now }
{
    match place(word, b) {
        Some(i) => (&word[..i], Some(&word[i + 1..])),
        None => (word, None),
    }
}

// What is left of a line from a place on.
pub(crate) fn rest(line: &[u8], at: usize) -> &[u8]
    ensures { result.now ≡ drop at line.now }
{
    line.get(at..).unwrap_or_default()
}

// The place of the first byte b from `at` on, or the line's end.
pub fn first(line: &[u8], at: usize, b: u8) -> usize
    ensures { result ≡ at + length (before b (drop at line.now)) }
{
    let (front, _) = split_once(rest(line, at), b);
    at + front.len()
}

// The 16 hexadecimal digits of a float's bits, lower case.
fn bits(word: &[u8]) -> Option<f64>
    ensures { result ≡ Reading·bits word.now }
{
    if word.len() != 16 {
        return None;
    }
    let bits = digits(word, 16, 0)?;
    Some(libm::float::from_bits(bits))
}

// A float's bits, or a decimal.
pub(crate) fn float(word: &[u8]) -> Option<f64>
    ensures { result ≡ Reading·float word.now }
{
    bits(word).or_else(|| decimal(word))
}

// The byte whose two hexadecimal digits, lower case, stand at the place.
#[tactic(auto, using(crate::proofs::Bytes::read_byte_lem))]
pub fn read_byte(line: &[u8], at: usize) -> Option<u8>
    ensures { result ≡ byte_at line.now at }
{
    let [high, low, ..] = rest(line, at) else {
        return None;
    };
    let high = digit(*high, 16)?;
    let low = digit(*low, 16)?;
    Some((16 * high + low) as u8)
}
