// Tests of all elements of a slice. Every call on a store asks them of all its words, so they go by chunks of 64
// elements: the tests of a chunk are joined without a branch, and a chunk that fails ends the loop.
ghost use Rattle.std.specs.Prelude.{◌≡◌};
ghost use Rattle.buffer.specs.Map.{all, ascending};

use super::zero::Zero;

const CHUNK: usize = 64;

fn zero_chunk<T: Zero>(chunk: &[T]) -> bool
    ensures { result ≡ all T.is_zero chunk.now }
{
    chunk.iter().fold(0, |bits, x| bits | x.bits()) == 0
}

// Whether every element is zero. By parts: a loop over `chunks` would have the same test, and its proof a lemma more, that
// the chunks together are the slice.
pub fn all_zero<T: Zero>(s: &[T]) -> bool
    ensures { result ≡ all T.is_zero s.now }
{
    let mut rest = s;
    while let Some((chunk, tail)) = rest.split_at_checked(CHUNK) {
        if !zero_chunk(chunk) {
            return false;
        }
        rest = tail;
    }
    zero_chunk(rest)
}

// By index: over pairs of neighbours, as by `array_windows`, the compiler makes a loop that takes a sixth longer.
#[tactic(auto, using(crate::proofs::Ascending::rising_more, crate::proofs::Ascending::rising_done))]
fn rising_chunk(chunk: &[u64]) -> bool
    ensures { result ≡ ascending chunk.now }
{
    let mut rising = true;
    for i in 1..chunk.len() {
        rising &= chunk[i - 1] < chunk[i];
    }
    rising
}

// Whether the numbers strictly rise. Neighbouring chunks share an element, so they are not those of `chunks`.
pub(crate) fn rising(s: &[u64]) -> bool
    ensures { result ≡ ascending s.now }
{
    let mut rest = s;
    while let Some((chunk, _)) = rest.split_at_checked(CHUNK + 1) {
        if !rising_chunk(chunk) {
            return false;
        }
        rest = &rest[CHUNK..];
    }
    rising_chunk(rest)
}
