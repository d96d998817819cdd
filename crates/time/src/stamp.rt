// When a pose is valid, from src/time/stamp.rs.
ghost use Rattle.std.specs.Prelude.{◌≡◌};

// At all times, or at one instant. Not an Option<u64>, whose None would have to be read as "at all times".
#[derive(Clone, Copy, Debug, PartialEq, Eq)]
pub enum Stamp {
    Static,
    At(u64),
}

impl Stamp {
    ghost use Rattle.time.specs.Stamp.{is_static, at};

    pub fn is_static(&self) -> bool
        ensures { result ≡ is_static self.now }
    {
        matches!(self, Stamp::Static)
    }

    // The instant, if it is one.
    pub fn at(self) -> Option<u64>
        ensures { result ≡ at self }
    {
        match self {
            Stamp::Static => None,
            Stamp::At(t) => Some(t),
        }
    }
}
