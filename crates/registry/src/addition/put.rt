// A pose put into the store.
ghost use Rattle.std.specs.Prelude.{◌≡◌};
ghost use Rattle.registry.specs.Tree.{add};
ghost use Rattle.registry.specs.Store.{limits_of, tree_of};
ghost use Rattle.registry.specs.Sound.{SoundStore};
ghost use Rattle.registry.specs.Calls.{outcome_of, words_mut, SameSlices, written};
ghost use Rattle.registry.specs.addition.Adding.{addition_of};
ghost use Rattle.registry.specs.layout.Rows.{IsRow, AbsentAt};

use super::Addition;
use crate::error::RegistryError;
use crate::store::StoreMut;

// Of StoreMut, with the fact that it is sound as a `requires`: the total calls have one in hand, and a method of CheckedMut
// would say of the store that is lent inside it what is said here of `self`.
impl StoreMut<'_> {
    // Adds to a child whose row is r.
    fn add_held(&mut self, r: usize, added: &Addition) -> Result<(), RegistryError>
        requires { SoundStore (words_mut self.old) × IsRow self.old.head.now added.now.child r }
        ensures same { SameSlices self.old self.new }
        ensures outcome { outcome_of result self.new
            ≡ (let s = words_mut self.old in written s (limits_of s) (add (limits_of s) (tree_of s) (addition_of added.now))) }
    {
        added.admit_held(&self.as_checked().rows(), r)?;
        self.put_row(r, added.instant(), added.pose)
    }

    // Adds a child that has no row; its row stands at k.
    fn add_new(&mut self, k: usize, added: &Addition) -> Result<(), RegistryError>
        requires { SoundStore (words_mut self.old) × AbsentAt self.old.head.now added.now.child k }
        ensures same { SameSlices self.old self.new }
        ensures outcome { outcome_of result self.new
            ≡ (let s = words_mut self.old in written s (limits_of s) (add (limits_of s) (tree_of s) (addition_of added.now))) }
    {
        added.admit_new(&self.as_checked().rows())?;
        self.new_row(
            k,
            u64::from(added.child),
            u64::from(added.parent),
            added.kind(),
        );
        self.put_row(k, added.instant(), added.pose)
    }

    // Adds to a store that is sound.
    pub(crate) fn add(&mut self, added: &Addition) -> Result<(), RegistryError>
        requires { SoundStore (words_mut self.old) }
        ensures same { SameSlices self.old self.new }
        ensures outcome { outcome_of result self.new
            ≡ (let s = words_mut self.old in written s (limits_of s) (add (limits_of s) (tree_of s) (addition_of added.now))) }
    {
        match self.as_checked().rows().find_row(u64::from(added.child)) {
            Ok(r) => self.add_held(r, added),
            Err(k) => self.add_new(k, added),
        }
    }
}
