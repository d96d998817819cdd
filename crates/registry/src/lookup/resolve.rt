// Lookup of two frames of the tree.
ghost use Rattle.std.specs.Prelude.{◌≡◌};
ghost use Rattle.registry.specs.Store.{tree_of};
ghost use Rattle.registry.specs.Answers.{pose};
ghost use Rattle.registry.specs.Calls.{words};
ghost use Rattle.registry.specs.Path.{lookup_along, lookup_apart};
ghost use Rattle.registry.specs.Answers.{replied};
ghost use Rattle.registry.specs.paths.Walks.{ask_known};

use super::compose;
use crate::checked::Checked;
use crate::error::RegistryError;
use geometry::isometry::Isometry;

impl Checked<'_> {
    // The target's side first, and both before whether they meet.
    pub(crate) fn resolve_known(
        &self,
        target: u64,
        source: u64,
        t: u64,
    ) -> Result<Isometry, RegistryError>
        ensures { replied pose result
            ≡ ask_known (tree_of (words self.now.store)) target source (lookup_along t) (lookup_apart t) }
    {
        let ends = self.rows().climb_ends(target, source);
        let target_side = self.compose_chain(target, ends.target, t)?;
        let source_side = self.compose_chain(source, ends.source, t)?;
        if ends.target != ends.source {
            return Err(RegistryError::Disconnected);
        }
        compose::combine_transforms(target_side, source_side)
    }
}
