// The two frames of a question: whether they are in the tree.
ghost use Rattle.std.specs.Prelude.{◌≡◌};
ghost use Rattle.registry.specs.Path.{is_parent, known};
ghost use Rattle.registry.specs.paths.Edges.{OfTree};
ghost use Rattle.registry.specs.paths.Walks.{known_frames};

use crate::error::RegistryError;
use crate::rows::Rows;

impl Rows<'_> {
    fn is_parent(&self, frame: u64) -> bool
        ensures { OfTree self.now.head.now (λ t. result ≡ is_parent frame t) }
    {
        for row in 0..self.used() {
            if self.parent(row) == frame {
                return true;
            }
        }
        false
    }

    // Whether the frame is a child or a parent.
    fn frame_exists(&self, frame: u64) -> bool
        ensures { OfTree self.now.head.now (λ t. result ≡ known t frame) }
    {
        self.parent_of(frame).is_some() || self.is_parent(frame)
    }

    // Whether both frames of a question are known, the target first.
    pub(crate) fn find_frames(&self, target: u32, source: u32) -> Result<(), RegistryError>
        ensures { OfTree self.now.head.now (λ t. result ≡ known_frames t target source) }
    {
        if !self.frame_exists(target as u64) {
            return Err(RegistryError::UnknownFrame(target));
        }
        if !self.frame_exists(source as u64) {
            return Err(RegistryError::UnknownFrame(source));
        }
        Ok(())
    }
}
