// Refusals 1 and 2: every call on a store that is lent begins with them.
ghost use Rattle.std.specs.Prelude.{◌≡◌, IfOk, true};
ghost use Rattle.time.specs.Reply.{answer};
ghost use Rattle.registry.specs.Store.{sized};
ghost use Rattle.registry.specs.Sound.{sound};
ghost use Rattle.registry.specs.Calls.{words, on_tree, tested};

use crate::checked::Checked;
use crate::error::RegistryError;
use crate::layout::head::Head;
use crate::parts::Parts;
use crate::store::Store;

impl<'a> Store<'a> {
    // Whether the rules hold, of a store whose sizes fit.
    pub(crate) fn sound(&self) -> bool
        requires { sized (words self.now) ≡ true }
        ensures { result ≡ sound (words self.now) }
    {
        let head = Head { words: self.head };
        if !head.is_sound() {
            return false;
        }
        let parts = Parts { store: *self };
        parts.rows_sound() && parts.unused_rows_zero()
    }

    // Whether the sizes fit, and then whether the rules hold.
    pub fn check(&self) -> Result<Checked<'a>, RegistryError>
        ensures tests { tested result ≡ on_tree (words self.now) (λ L t. answer tt) }
        ensures same { IfOk result (λ checked. checked.store ≡ self.now) }
    {
        if !self.sized() {
            return Err(RegistryError::Sizes);
        }
        if !self.sound() {
            return Err(RegistryError::UnsoundStore);
        }
        let checked = Checked { store: *self };
        Ok(checked)
    }
}
