// A store that is lent: three slices, of which the head says how the others are used.
ghost use Rattle.std.specs.Prelude.{◌≡◌};
ghost use Rattle.buffer.specs.Row.{FloatsFit};
ghost use Rattle.registry.specs.Calls.{store_of, words, words_mut};

// To read.
#[derive(Clone, Copy)]
pub struct Store<'a> {
    pub head: &'a [u64],
    pub instants: &'a [u64],
    pub poses: &'a [f64],
}

// To write.
#[derive(Drop)]
pub struct StoreMut<'a> {
    pub head: &'a mut [u64],
    pub instants: &'a mut [u64],
    pub poses: &'a mut [f64],
}

impl<'a> Store<'a> {
    pub fn new(head: &'a [u64], instants: &'a [u64], poses: &'a [f64]) -> Store<'a>
        ensures words { words result ≡ store_of head.now instants.now poses.now }
        ensures floats { FloatsFit result.poses.now }
    {
        Store {
            head,
            instants,
            poses,
        }
    }
}

impl StoreMut<'_> {
    pub fn as_ref(&self) -> Store<'_>
        ensures words { words result ≡ words_mut self.now }
        ensures floats { FloatsFit result.poses.now }
    {
        Store::new(self.head, self.instants, self.poses)
    }
}
