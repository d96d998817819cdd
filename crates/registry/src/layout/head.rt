// The words of a head: those of its header, and those of its rows.
ghost use Rattle.std.specs.Prelude.{◌≡◌, ◌<◌, length, MatchOption};
ghost use Rattle.registry.specs.Limits.{limits_by};
ghost use Rattle.registry.specs.Store.{head_length, limits_of, rows_in, capacity_in, used_in, flag_in, age_word_in, age_in, row_word, child_in, parent_in, kind_in, count_in, kind_of_word};
ghost use Rattle.registry.specs.layout.Rows.{head_of, HasHeader, HasRow};

use super::{
    AGE, AGE_FLAG, CAPACITY, CHILD, COUNT, HEADER_WORDS, KIND, PARENT, ROWS, USED, head_length,
};
use crate::limits::Limits;
use buffer::kind::Kind;

// A head whose header lies within it.
#[derive(Clone, Copy)]
pub(crate) struct Head<'a> {
    pub(crate) words: &'a [u64],
    ghost header: { HasHeader words.now },
}

impl<'a> Head<'a> {
    // The head of these words, if they are long enough for a header.
    pub(crate) fn new(words: &'a [u64]) -> Option<Head<'a>>
        ensures { MatchOption result (length words.now < head_length 0) (λ head. head.words.now ≡ words.now) }
    {
        if words.len() < HEADER_WORDS {
            return None;
        }
        Some(Head { words })
    }

    pub(crate) fn rows(&self) -> u64
        ensures { result ≡ rows_in (head_of self.now.words.now) }
    {
        self.words[ROWS]
    }

    pub(crate) fn capacity(&self) -> u64
        ensures { result ≡ capacity_in (head_of self.now.words.now) }
    {
        self.words[CAPACITY]
    }

    // How many rows are used.
    pub(crate) fn used(&self) -> usize
        ensures { result ≡ used_in (head_of self.now.words.now) }
    {
        self.words[USED] as usize
    }

    pub(crate) fn age_flag(&self) -> u64
        ensures { result ≡ flag_in (head_of self.now.words.now) }
    {
        self.words[AGE_FLAG]
    }

    pub(crate) fn age_word(&self) -> u64
        ensures { result ≡ age_word_in (head_of self.now.words.now) }
    {
        self.words[AGE]
    }

    pub(crate) fn max_age(&self) -> Option<u64>
        ensures { result ≡ age_in (head_of self.now.words.now) }
    {
        match self.age_flag() {
            0 => None,
            _ => Some(self.age_word()),
        }
    }

    pub(crate) fn limits(&self) -> Limits
        ensures { limits_by result ≡ limits_of (head_of self.now.words.now) }
    {
        Limits {
            rows: self.rows(),
            samples: self.capacity(),
            max_age: self.max_age(),
        }
    }

    // A word of row r. That the row lies in the head is asked here and below, since callers count rows: a type for a row
    // number would be made and taken apart at each word.
    fn row_word(&self, r: usize, place: usize) -> u64
        requires { HasRow r self.now.words.now × (place < 4) }
        ensures { result ≡ row_word (head_of self.now.words.now) r place }
    {
        self.words[head_length(r) + place]
    }

    pub(crate) fn child(&self, r: usize) -> u64
        requires { HasRow r self.now.words.now }
        ensures { result ≡ child_in (head_of self.now.words.now) r }
    {
        self.row_word(r, CHILD)
    }

    pub(crate) fn parent(&self, r: usize) -> u64
        requires { HasRow r self.now.words.now }
        ensures { result ≡ parent_in (head_of self.now.words.now) r }
    {
        self.row_word(r, PARENT)
    }

    pub(crate) fn kind_word(&self, r: usize) -> u64
        requires { HasRow r self.now.words.now }
        ensures { result ≡ kind_in (head_of self.now.words.now) r }
    {
        self.row_word(r, KIND)
    }

    pub(crate) fn kind(&self, r: usize) -> Kind
        requires { HasRow r self.now.words.now }
        ensures { result ≡ kind_of_word (kind_in (head_of self.now.words.now) r) }
    {
        match self.kind_word(r) {
            0 => Kind::Static,
            _ => Kind::Dynamic,
        }
    }

    // How many samples row r holds.
    pub(crate) fn count(&self, r: usize) -> usize
        requires { HasRow r self.now.words.now }
        ensures { result ≡ count_in (head_of self.now.words.now) r }
    {
        self.row_word(r, COUNT) as usize
    }
}
