// The times at which a row is served.
ghost use Rattle.std.specs.Prelude.{◌≡◌};
ghost use Rattle.buffer.specs.Samples.{coverage};
ghost use Rattle.buffer.specs.Buffers.{samples};

use super::buffer::Buffer;

#[derive(Clone, Copy, Debug, PartialEq, Eq)]
pub enum Coverage {
    AllTime,
    Range { start: u64, end: u64 },
    Empty,
}

impl Buffer<'_> {
    pub fn coverage(&self) -> Coverage
        ensures { result ≡ coverage self.now.kind (samples self.now) }
    {
        self.times().coverage(self.kind)
    }
}
