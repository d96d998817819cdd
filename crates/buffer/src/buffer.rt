// A row's part of the lent slices, whose words have been tested: samples, and zeros after them.
ghost use Rattle.std.specs.Prelude.{◌≡◌, ◌≤◌, take};
ghost use Rattle.buffer.specs.Row.{Row, below};

use super::kind::Kind;
use super::times::Times;

// To be read.
#[derive(Clone, Copy)]
pub struct Buffer<'a> {
    pub instants: &'a [u64],
    pub poses: &'a [f64],
    pub kind: Kind,
    pub count: usize,
    ghost held: { Row count instants.now poses.now },
}

// To be written.
#[derive(Drop)]
pub struct BufferMut<'a> {
    pub instants: &'a mut [u64],
    pub poses: &'a mut [f64],
    pub kind: Kind,
    pub count: usize,
    ghost held: { Row count instants.now poses.now },
}

impl Buffer<'_> {
    #[tactic(auto, using(crate::proofs::Places::row_held))]
    pub(crate) fn times(&self) -> Times<'_>
        ensures instants { result.instants.now ≡ self.now.instants.now }
        ensures count { result.count ≡ self.now.count }
    {
        Times {
            instants: self.instants,
            count: self.count,
        }
    }

    // The place of t among the instants.
    pub(crate) fn place(&self, t: u64) -> usize
        ensures place { result ≡ below t (take self.now.count self.now.instants.now) }
        ensures bound { result ≤ self.now.count }
    {
        self.times().place(t) as usize
    }
}

impl BufferMut<'_> {
    // What it holds now.
    pub(crate) fn view(&self) -> Buffer<'_>
        ensures instants { result.instants.now ≡ self.now.instants.now }
        ensures poses { result.poses.now ≡ self.now.poses.now }
        ensures kind { result.kind ≡ self.now.kind }
        ensures count { result.count ≡ self.now.count }
    {
        Buffer {
            instants: &*self.instants,
            poses: &*self.poses,
            kind: self.kind,
            count: self.count,
        }
    }
}
