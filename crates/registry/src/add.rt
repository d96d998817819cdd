// Addition.
ghost use Rattle.std.specs.Prelude.{◌≡◌};
ghost use Rattle.registry.specs.Tree.{addition};
ghost use Rattle.registry.specs.Calls.{outcome_of, words_mut, SameSlices, add_of};

use crate::addition::Addition;
use crate::error::RegistryError;
use crate::store::StoreMut;
use geometry::isometry::Isometry;
use time::stamp::Stamp;

impl StoreMut<'_> {
    // Puts a pose into the tree, or says why not and leaves every word. The parameters are the Rust's.
    #[tactic(auto, unfolding(crate::specs::Calls::add_of), using(crate::proofs::soundness::Called::refused_write, crate::proofs::soundness::Called::passed_write, crate::proofs::soundness::Called::passed_sound, crate::proofs::soundness::Called::added_write))]
    pub fn add_transform(
        &mut self,
        child: u32,
        parent: u32,
        stamp: Stamp,
        pose: Isometry,
    ) -> Result<(), RegistryError>
        ensures same { SameSlices self.old self.new }
        ensures outcome { outcome_of result self.new
            ≡ add_of (words_mut self.old) (addition child parent stamp pose) }
    {
        self.as_ref().check()?;
        self.add(&Addition {
            child,
            parent,
            stamp,
            pose,
        })
    }
}
