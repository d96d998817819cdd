// The rules of the head: sizes, rows and age.
ghost use Rattle.std.specs.Prelude.{◌≡◌, List, ℕ, ◌≤◌, Float, length, is_some, IfSome};
ghost use Rattle.buffer.specs.Map.{rising};
ghost use Rattle.registry.specs.Store.{head_length, rows_in, used_in};
ghost use Rattle.registry.specs.Sound.{every};
ghost use Rattle.registry.specs.Calls.{store_of};
ghost use Rattle.registry.specs.layout.Rows.{head_of, HasRow, UsedRows};
ghost use Rattle.registry.specs.paths.Edges.{OfTree};
ghost use Rattle.registry.specs.soundness.Checks.{row_fits, age_named, head_sound};

use crate::layout::head::Head;
use crate::rows::Rows;

impl<'a> Head<'a> {
    // The used rows, if their children rise.
    fn rising_rows(&self) -> Option<Rows<'a>>
        requires { UsedRows self.now.words.now }
        ensures rises { OfTree self.now.words.now (λ t. is_some result ≡ rising t) }
        ensures same { IfSome result (λ rows. rows.head.now ≡ self.now.words.now) }
    {
        for r in 1..self.used() {
            if self.child(r) <= self.child(r - 1) {
                return None;
            }
        }
        Some(Rows { head: self.words })
    }

    // Whether row r's frames fit 32 bits, its parent differs from its child, and its kind has a named
    // value. (As in layout/head.rt, the caller knows that the row lies in the head.)
    fn row_fits(&self, r: usize) -> bool
        requires { HasRow r self.now.words.now }
        ensures { result ≡ row_fits self.now.words.now r }
    {
        let child = self.child(r);
        let parent = self.parent(r);
        child <= u32::MAX as u64
            && parent <= u32::MAX as u64
            && parent != child
            && self.kind_word(r) <= 1
    }

    fn rows_fit(&self) -> bool
        requires { UsedRows self.now.words.now }
        ensures { result ≡ every (used_in (head_of self.now.words.now)) (row_fits self.now.words.now) }
    {
        (0..self.used()).all(|r| self.row_fits(r))
    }

    // Whether the age flag has a named value, and the age is 0 without it.
    fn age_named(&self) -> bool
        ensures { result ≡ age_named self.now.words.now }
    {
        match self.age_flag() {
            0 => self.age_word() == 0,
            1 => true,
            _ => false,
        }
    }

    // The rules of the head, but for its unused words.
    pub(crate) fn is_sound(&self) -> bool
        requires { (rows_in (head_of self.now.words.now) ≤ 256) × (head_length (rows_in (head_of self.now.words.now)) ≤ length self.now.words.now) }
        ensures { (instants : List ℕ) (poses : List Float) → result ≡ head_sound (store_of self.now.words.now instants poses) }
    {
        if self.rows() < self.used() as u64 {
            return false;
        }
        let Some(rows) = self.rising_rows() else {
            return false;
        };
        self.rows_fit() && self.age_named() && rows.has_no_circle()
    }
}
