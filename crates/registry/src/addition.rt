// Addition, on a store that is sized and sound.
ghost use Rattle.std.specs.Prelude.{◌≡◌};
ghost use Rattle.buffer.specs.Kind.{kind_of};
ghost use Rattle.registry.specs.Tree.{instant_of};

mod admit;
mod cycle;
mod new_row;
mod put;

use buffer::kind::Kind;
use geometry::isometry::Isometry;
use time::stamp::Stamp;

// A pose to be put into the tree.
#[derive(Clone, Copy)]
pub(crate) struct Addition {
    pub(crate) child: u32,
    pub(crate) parent: u32,
    pub(crate) stamp: Stamp,
    pub(crate) pose: Isometry,
}

impl Addition {
    // The kind that its stamp gives a new row.
    fn kind(&self) -> Kind
        ensures { result ≡ kind_of self.now.stamp }
    {
        Kind::from(self.stamp)
    }

    // The instant at which its sample stands.
    fn instant(&self) -> u64
        ensures { result ≡ instant_of self.now.stamp }
    {
        self.stamp.at().unwrap_or(0)
    }
}
