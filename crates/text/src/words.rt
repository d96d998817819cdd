// The words of a line, read one behind the other as numbers, frames, floats or keywords.
ghost use Rattle.std.specs.Prelude.{◌≡◌, ltb, length, None, Some, option_map, if◌then◌else◌};
ghost use Rattle.text.specs.Reading.{Reads, read_at, any_word, number, frame, float, keyword};

use super::read;

// A line, and the place of the word that is read next. It moves behind the word and the one space after it, also where
// the line ends with the word: `ended` then holds. Where no word of the form that is asked for starts, what is read is
// None, and the place stays.
#[derive(Drop)]
pub struct Words<'a> {
    pub line: &'a [u8],
    pub at: usize,
}

impl<'a> Words<'a> {
    // The next word, and the place after it.
    #[tactic(auto, using(crate::proofs::NextWord::read_word_lem))]
    fn next(&self) -> Option<(&'a [u8], usize)>
        ensures { option_map (λ w. (w.0.now, w.1)) result ≡ read_at any_word self.now.line.now self.now.at }
    {
        let (word, _) = read::split_once(read::rest(self.line, self.at), b' ');
        if word.is_empty() {
            return None;
        }
        Some((word, self.at + word.len() + 1))
    }

    // The next word, whatever it is. This method and the next three differ in how they read it; handed over as a closure,
    // that would need a contract as long as one of them.
    pub fn word(&mut self) -> Option<&'a [u8]>
        ensures { Reads any_word self.old self.new (option_map (λ w. w.now) result) }
    {
        let (word, after) = self.next()?;
        self.at = after;
        Some(word)
    }

    // Decimal digits, no sign.
    #[tactic(auto, using(crate::proofs::NextWord::read_in_form))]
    pub fn number(&mut self) -> Option<u64>
        ensures { Reads number self.old self.new result }
    {
        let (word, next) = self.next()?;
        let n = read::digits(word, 10, 0)?;
        self.at = next;
        Some(n)
    }

    // A number of 32 bits.
    #[tactic(auto, using(crate::proofs::NextWord::read_in_form))]
    pub fn frame(&mut self) -> Option<u32>
        ensures { Reads frame self.old self.new result }
    {
        let (word, next) = self.next()?;
        let number = read::digits(word, 10, 0)?;
        let frame = u32::try_from(number).ok()?;
        self.at = next;
        Some(frame)
    }

    // A float by its bits, or a decimal.
    #[tactic(auto, using(crate::proofs::NextWord::read_in_form))]
    pub fn float(&mut self) -> Option<f64>
        ensures { Reads float self.old self.new result }
    {
        let (word, next) = self.next()?;
        let x = read::float(word)?;
        self.at = next;
        Some(x)
    }

    // Whether the next word is the one expected, which then is read.
    #[tactic(auto, using(crate::proofs::NextWord::read_in_form, crate::proofs::Equal::equal_same))]
    pub fn keyword(&mut self, expected: &[u8]) -> bool
        ensures { Reads (keyword expected.now) self.old self.new (if result then Some tt else None) }
    {
        let Some((word, behind)) = self.next() else {
            return false;
        };
        if word != expected {
            return false;
        }
        self.at = behind;
        true
    }

    // Whether the word before was the line's last.
    pub fn ended(&self) -> bool
        ensures { result ≡ ltb (length self.now.line.now) self.now.at }
    {
        self.line.len() < self.at
    }
}
