// The instants that a row holds.
ghost use Rattle.std.specs.Prelude.{◌≡◌, List, Float};
ghost use Rattle.buffer.specs.Map.{all};
ghost use Rattle.buffer.specs.Samples.{newest, survives, range, coverage};
ghost use Rattle.buffer.specs.Row.{Instants, samples_of};

use super::coverage::Coverage;
use super::kind::Kind;

// The first `count` of a row's instants, which rise.
#[derive(Clone, Copy)]
pub struct Times<'a> {
    pub instants: &'a [u64],
    pub count: usize,
    ghost held: { Instants count instants.now },
}

impl Times<'_> {
    // The first and the last, if any.
    #[tactic(auto, using(crate::proofs::Places::range_held))]
    pub(crate) fn range(&self) -> Option<(u64, u64)>
        ensures { (poses : List Float) → result ≡ range (samples_of self.now.count self.now.instants.now poses) }
    {
        if self.count == 0 {
            return None;
        }
        Some((self.instants[0], self.instants[self.count - 1]))
    }

    // When a row of this kind is served. Of the instants alone: nothing is asked of the poses.
    pub fn coverage(&self, kind: Kind) -> Coverage
        ensures { (poses : List Float) → result ≡ coverage kind (samples_of self.now.count self.now.instants.now poses) }
    {
        // The kind first: the range of a static row is not read.
        if let Kind::Static = kind {
            return Coverage::AllTime;
        }
        match self.range() {
            Some((start, end)) => Coverage::Range { start, end },
            None => Coverage::Empty,
        }
    }

    // Whether none is below the last less the age. They rise, so the first decides.
    pub(crate) fn is_fresh(&self, max_age: Option<u64>) -> bool
        ensures { (poses : List Float) → (let m = samples_of self.now.count self.now.instants.now poses in
            result ≡ all (λ x. survives max_age (newest m) x.0) m) }
    {
        let Some(age) = max_age else {
            return true;
        };
        let Some((first, last)) = self.range() else {
            return true;
        };
        last - first <= age
    }
}
