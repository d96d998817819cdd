// The rows of a head, by rising child.
ghost use Rattle.std.specs.Prelude.{◌≡◌, ◌<◌};
ghost use Rattle.registry.specs.Store.{used_in, child_in, parent_in, kind_in, count_in, kind_of_word};
ghost use Rattle.registry.specs.layout.Rows.{head_of, RisingRows};

use crate::layout::head::Head;
use buffer::kind::Kind;

// A head whose used rows lie within it and rise strictly by their children.
#[derive(Clone, Copy)]
pub(crate) struct Rows<'a> {
    pub(crate) head: &'a [u64],
    ghost rising: { RisingRows head.now },
}

// What `Head` reads of a row, of a row below those used: one fact to show, in the place of where its words end.
impl Rows<'_> {
    pub(crate) fn head(&self) -> Head<'_>
        ensures { result.words.now ≡ self.now.head.now }
    {
        Head { words: self.head }
    }

    // How many rows are used.
    pub(crate) fn used(&self) -> usize
        ensures { result ≡ used_in (head_of self.now.head.now) }
    {
        self.head().used()
    }

    pub(crate) fn child(&self, r: usize) -> u64
        requires { r < used_in (head_of self.now.head.now) }
        ensures { result ≡ child_in (head_of self.now.head.now) r }
    {
        self.head().child(r)
    }

    pub(crate) fn parent(&self, r: usize) -> u64
        requires { r < used_in (head_of self.now.head.now) }
        ensures { result ≡ parent_in (head_of self.now.head.now) r }
    {
        self.head().parent(r)
    }

    pub(crate) fn kind(&self, r: usize) -> Kind
        requires { r < used_in (head_of self.now.head.now) }
        ensures { result ≡ kind_of_word (kind_in (head_of self.now.head.now) r) }
    {
        self.head().kind(r)
    }

    // How many samples row r holds.
    pub(crate) fn count(&self, r: usize) -> usize
        requires { r < used_in (head_of self.now.head.now) }
        ensures { result ≡ count_in (head_of self.now.head.now) r }
    {
        self.head().count(r)
    }
}
