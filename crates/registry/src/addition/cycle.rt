// The circle test of an addition.
ghost use Rattle.std.specs.Prelude.{◌≡◌};
ghost use Rattle.registry.specs.Tree.{ancestors, member};
ghost use Rattle.registry.specs.paths.Edges.{OfTree};

use crate::rows::Rows;

impl Rows<'_> {
    // Whether the child is above the parent.
    pub(crate) fn creates_cycle(&self, child: u64, parent: u64) -> bool
        ensures { OfTree self.now.head.now (λ t. result ≡ member child (ancestors t parent)) }
    {
        self.steps_to_root(parent, child).is_none()
    }
}
