// Latest common time.
ghost use Rattle.std.specs.Prelude.{◌≡◌};
ghost use Rattle.registry.specs.Answers.{replied, told_time};
ghost use Rattle.registry.specs.Calls.{words, common_time_of};

use crate::error::RegistryError;
use crate::store::Store;
use time::stamp::Stamp;

impl Store<'_> {
    // The latest instant that every hop between the frames serves.
    #[tactic(auto, unfolding(crate::specs::Calls::common_time_of), using(crate::proofs::soundness::Called::refused_call, crate::proofs::soundness::Called::passed_call, crate::proofs::soundness::Called::answered_call))]
    pub fn latest_common_time(&self, target: u32, source: u32) -> Result<Stamp, RegistryError>
        ensures { replied told_time result ≡ common_time_of (words self.now) target source }
    {
        self.check()?.latest_common_time(target, source)
    }
}
