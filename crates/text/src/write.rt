// Text written into a lent buffer, each text behind the other.
ghost use Rattle.std.specs.Prelude.{◌≡◌, ◌+◌, ◌≤◌, ◌<◌, [], ◌∷◌, length, take};
ghost use Rattle.std.specs.Option.{SomeIff};
ghost use Rattle.text.specs.Digits.{digit_character, digits, digit_count};
ghost use Rattle.text.specs.Writing.{Writes, number_text, float_text, byte_text};

// A lent buffer, and the place in it where the next text begins. A text that has no room is left out whole, and a
// later, shorter one may still fit. The contract of `write!` says nothing of such a text, so texts are written by these
// methods and not by `Display`.
#[derive(Drop)]
pub struct Writer<'a> {
    pub out: &'a mut [u8],
    pub at: usize,
}

// How many digits n has in base ten.
fn digit_count(n: u64) -> usize
    ensures { result ≡ digit_count 19 n }
{
    if n == 0 {
        return 1;
    }
    n.ilog10() as usize + 1
}

// The byte of a digit.
fn digit_character(d: u64) -> u8
    requires { d < 16 }
    ensures { result ≡ digit_character d }
{
    b"0123456789abcdef"[d as usize]
}

impl<'a> Writer<'a> {
    // A writer that has written nothing.
    pub fn new(out: &'a mut [u8]) -> Writer<'a>
        ensures buffer { result.out ≡ out.entry }
        ensures start { result.at ≡ 0 }
    {
        Writer { out, at: 0 }
    }
}

impl Writer<'_> {
    // The place behind the next count bytes, if there is room for them.
    fn room(&self, count: usize) -> Option<usize>
        ensures { SomeIff result (self.now.at + count ≤ length self.now.out.now) (self.now.at + count) }
    {
        self.at
            .checked_add(count)
            .filter(|end| *end <= self.out.len())
    }

    // The last k digits of n.
    #[tactic(auto, using(crate::proofs::Writes::stored, crate::proofs::Stores::length_digits, crate::proofs::Stores::digit_stored, crate::proofs::Stores::digits_stored,),)]
    fn write_digits(&mut self, n: u64, base: u64, k: usize)
        requires { (0 < base) × (base ≤ 16) }
        ensures { Writes self.old self.new (digits base k n ∷ []) }
    {
        let Some(end) = self.room(k) else {
            return;
        };
        let mut rest = n;
        for i in (self.at..end).rev() {
            self.out[i] = digit_character(rest % base);
            rest /= base;
        }
        self.at = end;
    }

    #[tactic(auto, using(crate::proofs::Writes::copied))]
    pub fn write_bytes(&mut self, text: &[u8])
        ensures { Writes self.old self.new (text.now ∷ []) }
    {
        if let Some(end) = self.room(text.len()) {
            self.out[self.at..end].copy_from_slice(text);
            self.at = end;
        }
    }

    // What has been written.
    pub fn written(&self) -> &[u8]
        ensures { result.now ≡ take self.now.at self.now.out.now }
    {
        self.out.get(..self.at).unwrap_or(&*self.out)
    }

    // Decimal digits with no zero in front.
    pub fn write_number(&mut self, n: u64)
        ensures { Writes self.old self.new (number_text n ∷ []) }
    {
        self.write_digits(n, 10, digit_count(n));
    }

    // The last k decimal digits of n, zeros in front included.
    pub fn write_last_digits(&mut self, n: u64, k: usize)
        ensures { Writes self.old self.new (digits 10 k n ∷ []) }
    {
        self.write_digits(n, 10, k);
    }

    // The 16 hexadecimal digits of the bits, or `nan`.
    #[tactic(auto, unfolding(crate::specs::Writing::float_text))]
    pub fn write_float(&mut self, x: f64)
        ensures { Writes self.old self.new (float_text x ∷ []) }
    {
        if x.is_nan() {
            self.write_bytes(b"nan");
        } else {
            self.write_digits(libm::float::to_bits(x), 16, 16);
        }
    }

    // The two hexadecimal digits of a byte.
    pub fn write_byte(&mut self, b: u8)
        ensures { Writes self.old self.new (byte_text b ∷ []) }
    {
        self.write_digits(u64::from(b), 16, 2);
    }
}
