// Lookup.
ghost use Rattle.std.specs.Prelude.{◌≡◌};
ghost use Rattle.registry.specs.Answers.{replied, pose};
ghost use Rattle.registry.specs.Calls.{words, lookup_of};

use crate::error::RegistryError;
use crate::store::Store;
use geometry::isometry::Isometry;

impl Store<'_> {
    // The source's pose seen from the target, at an instant.
    #[tactic(auto, unfolding(crate::specs::Calls::lookup_of), using(crate::proofs::soundness::Called::refused_call, crate::proofs::soundness::Called::passed_call, crate::proofs::soundness::Called::answered_call))]
    pub fn get_transform(&self, target: u32, source: u32, t: u64) -> Result<Isometry, RegistryError>
        ensures { replied pose result ≡ lookup_of (words self.now) target source t }
    {
        self.check()?.get_transform(target, source, t)
    }
}
