// Opening a store.
ghost use Rattle.std.specs.Prelude.{◌≡◌};
ghost use Rattle.registry.specs.Calls.{outcome_of, words_mut, SameSlices, open_of};

use crate::error::RegistryError;
use crate::limits::Limits;
use crate::store::StoreMut;

impl<'a> StoreMut<'a> {
    // Three slices as a store to be written, whatever stands in them.
    pub fn new(head: &'a mut [u64], instants: &'a mut [u64], poses: &'a mut [f64]) -> StoreMut<'a>
        ensures { (result.head ≡ head.entry) × (result.instants ≡ instants.entry) × (result.poses ≡ poses.entry) }
    {
        StoreMut {
            head,
            instants,
            poses,
        }
    }
}

impl StoreMut<'_> {
    // Overwrites everything with a store of these sizes and this age, with no row used. The three come one by one, as from C.
    #[tactic(auto, unfolding(crate::specs::Calls::open_of))]
    pub fn open(
        &mut self,
        rows: u64,
        samples: u64,
        max_age: Option<u64>,
    ) -> Result<(), RegistryError>
        ensures same { SameSlices self.old self.new }
        ensures outcome { outcome_of result self.new
            ≡ open_of (words_mut self.old) (record { rows = rows; capacity = samples; age = max_age }) }
    {
        if !self.as_ref().sizes_fit(rows, samples) {
            return Err(RegistryError::Sizes);
        }
        self.overwrite(Limits {
            rows,
            samples,
            max_age,
        });
        Ok(())
    }
}
