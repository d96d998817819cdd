// The kind of a row.
ghost use Rattle.std.specs.Prelude.{◌≡◌};

use time::stamp::Stamp;

// A single pose at all times, or poses by instant. (Document 01: static, moving.)
#[derive(Clone, Copy, Debug, PartialEq, Eq)]
pub enum Kind {
    Static,
    Dynamic,
}

// The kind of a row whose samples have such a stamp.
impl From<Stamp> for Kind {
    ghost use Rattle.buffer.specs.Kind.{kind_of};

    ghost from_gives = { λ stamp kind. kind ≡ kind_of stamp };

    fn from(stamp: Stamp) -> Kind {
        match stamp {
            Stamp::Static => Kind::Static,
            Stamp::At(_) => Kind::Dynamic,
        }
    }
}
