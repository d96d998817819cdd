// The rule that every unused word is 0, positive zero for floats: the unused rows.
ghost use Rattle.std.specs.Prelude.{◌≡◌};
ghost use Rattle.registry.specs.Sound.{unused_rows_zero};
ghost use Rattle.registry.specs.Calls.{words};

use crate::parts::Parts;
use crate::store::Store;
use buffer::chunks::all_zero;

impl Parts<'_> {
    pub(crate) fn unused_rows_zero(&self) -> bool
        ensures { result ≡ unused_rows_zero (words self.now.store) }
    {
        all_zero(self.unused_head())
            && all_zero(self.unused_instants())
            && all_zero(self.unused_poses())
    }
}
