// The parts that the rows of a store have of its three slices.
ghost use Rattle.std.specs.Prelude.{◌≡◌};
ghost use Rattle.registry.specs.Calls.{words};
ghost use Rattle.registry.specs.layout.Rows.{UsedParts};

use crate::checked::Checked;
use crate::layout::head::Head;
use crate::store::Store;

// A store whose used rows lie within its slices.
#[derive(Clone, Copy)]
pub(crate) struct Parts<'a> {
    pub(crate) store: Store<'a>,
    ghost within: { UsedParts (words store) },
}

impl Checked<'_> {
    // Its words by their rows' parts.
    pub(crate) fn parts(&self) -> Parts<'_>
        ensures { result.store ≡ self.now.store }
    {
        Parts { store: self.store }
    }
}

impl<'a> Parts<'a> {
    pub(crate) fn head(&self) -> Head<'a>
        ensures { result.words.now ≡ self.now.store.head.now }
    {
        Head {
            words: self.store.head,
        }
    }
}
