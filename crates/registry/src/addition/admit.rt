// The tests of an addition that come before 17.
ghost use Rattle.std.specs.Prelude.{◌≡◌, List, ℕ, ◌^◌, ◌<◌, Float};
ghost use Rattle.std.specs.Prelude.{None, Some};
ghost use Rattle.time.specs.Reply.{answer};
ghost use Rattle.registry.specs.Tree.{Limits, Tree};
ghost use Rattle.registry.specs.Store.{used_in, parent_in, edge_at, limits_of, tree_of};
ghost use Rattle.registry.specs.Answers.{replied, told_done, done};
ghost use Rattle.registry.specs.Calls.{store_of};
ghost use Rattle.registry.specs.addition.Adding.{addition_of, pose_tests, admits};
ghost use Rattle.registry.specs.layout.Rows.{head_of};

use super::Addition;
use crate::error::RegistryError;
use crate::rows::Rows;
use geometry::transform;

impl Addition {
    // Refusals 3, 4 and 5.
    fn test_pose(&self) -> Result<(), RegistryError>
        ensures { replied told_done result ≡ (let a = self.now in pose_tests a.child a.parent a.pose (answer done)) }
    {
        transform::validate(self.pose)?;
        if self.parent == self.child {
            return Err(RegistryError::SelfReferentialFrame);
        }
        Ok(())
    }

    // Refusals 3, 4, 5, 6 and 8, where row r is the child's.
    pub(crate) fn admit_held(&self, rows: &Rows<'_>, r: usize) -> Result<(), RegistryError>
        requires { (r < used_in (head_of rows.now.head.now)) × (parent_in (head_of rows.now.head.now) r < 2 ^ 32) }
        ensures { (L : Limits) (t : Tree) (instants : List ℕ) (poses : List Float)
            → replied told_done result ≡ admits L t (addition_of self.now) (Some (edge_at (store_of rows.now.head.now instants poses) r)) (answer done) }
    {
        self.test_pose()?;
        let held = rows.parent(r);
        if held != u64::from(self.parent) {
            return Err(RegistryError::ReparentingNotSupported(held as u32));
        }
        if rows.kind(r) != self.kind() {
            return Err(RegistryError::StaticDynamicConflict);
        }
        Ok(())
    }

    // Refusals 7, 3, 4, 5 and 16, where the child has no row.
    pub(crate) fn admit_new(&self, rows: &Rows<'_>) -> Result<(), RegistryError>
        ensures { (instants : List ℕ) (poses : List Float)
            → (let s = store_of rows.now.head.now instants poses in replied told_done result ≡ admits (limits_of s) (tree_of s) (addition_of self.now) None (answer done)) }
    {
        if rows.creates_cycle(u64::from(self.child), u64::from(self.parent)) {
            return Err(RegistryError::CycleDetected);
        }
        self.test_pose()?;
        if rows.head().rows() as usize <= rows.used() {
            return Err(RegistryError::TreeFull);
        }
        Ok(())
    }
}
