// Wiping.
ghost use Rattle.std.specs.Prelude.{◌≡◌};
ghost use Rattle.registry.specs.Tree.{wipe};
ghost use Rattle.registry.specs.Store.{limits_of, tree_of};
ghost use Rattle.registry.specs.Sound.{SoundStore};
ghost use Rattle.registry.specs.Calls.{outcome_of, words_mut, SameSlices, written, wipe_of};

use crate::error::RegistryError;
use crate::store::StoreMut;

impl StoreMut<'_> {
    // Drops a moving child's poses before the instant.
    #[tactic(auto, unfolding(crate::specs::Calls::wipe_of), using(crate::proofs::soundness::Called::refused_write, crate::proofs::soundness::Called::passed_write, crate::proofs::soundness::Called::passed_sound, crate::proofs::soundness::Called::wiped_write))]
    pub fn remove_before(&mut self, child: u32, t: u64) -> Result<(), RegistryError>
        ensures same { SameSlices self.old self.new }
        ensures outcome { outcome_of result self.new ≡ wipe_of (words_mut self.old) child t }
    {
        self.as_ref().check()?;
        self.wipe(child, t)
    }

    // The same where the store is sound.
    pub(crate) fn wipe(&mut self, child: u32, t: u64) -> Result<(), RegistryError>
        requires { SoundStore (words_mut self.old) }
        ensures same { SameSlices self.old self.new }
        ensures outcome { outcome_of result self.new
            ≡ (let s = words_mut self.old in written s (limits_of s) (wipe (tree_of s) child t)) }
    {
        let Ok(row) = self.as_checked().rows().find_row(u64::from(child)) else {
            return Err(RegistryError::UnknownFrame(child));
        };
        self.wipe_row(row, t);
        Ok(())
    }
}
