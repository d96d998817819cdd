// Moving and clearing the elements of a slice.
ghost use Rattle.std.specs.Prelude.{◌≡◌, ◌+◌, ◌≤◌, length, replicate};
ghost use Rattle.buffer.specs.Words.{moved_up, moved_down, inserted, removed};

use super::zero::Zero;

pub fn clear<T: Zero>(s: &mut [T])
    ensures { s.new ≡ replicate (length s.old) T.zero }
{
    s.fill(T::zero());
}

// Moves the elements from `at` up to `end` up by `gap`.
#[tactic(auto, using(crate::proofs::Moves::up_copied))]
pub fn move_up<T: Copy>(s: &mut [T], at: usize, end: usize, gap: usize)
    requires { (at ≤ end) × (end + gap ≤ length s.old) }
    ensures { s.new ≡ moved_up at end gap s.old }
{
    s.copy_within(at..end, at + gap);
}

// Moves the elements from `gap` up to `end` down by `gap`.
#[tactic(auto, unfolding(crate::specs::Words::moved_down))]
pub(crate) fn move_down<T: Copy>(s: &mut [T], gap: usize, end: usize)
    requires { (gap ≤ end) × (end ≤ length s.old) }
    ensures { s.new ≡ moved_down gap end s.old }
{
    s.copy_within(gap..end, 0);
}

// Puts `v` in at `at`, before the elements up to `end`.
#[tactic(auto, using(crate::proofs::Moves::put_inserted))]
pub fn insert<T: Copy>(s: &mut [T], at: usize, end: usize, v: &[T])
    requires { (at ≤ end) × (end + length v.now ≤ length s.old) }
    ensures { s.new ≡ inserted at end v.now s.old }
{
    let gap = v.len();
    move_up(s, at, end, gap);
    s[at..at + gap].copy_from_slice(v);
}

// Puts `gap` zeros in at `at`, before the elements up to `end`.
#[tactic(auto, using(crate::proofs::Moves::zeros_inserted))]
pub fn insert_zeros<T: Zero>(s: &mut [T], at: usize, end: usize, gap: usize)
    requires { (at ≤ end) × (end + gap ≤ length s.old) }
    ensures { s.new ≡ inserted at end (replicate gap T.zero) s.old }
{
    move_up(s, at, end, gap);
    clear(&mut s[at..at + gap]);
}

// Takes the first `gap` elements out of those up to `end`, and clears what they leave.
#[tactic(auto, using(crate::proofs::Moves::down_clear))]
pub(crate) fn remove<T: Zero>(s: &mut [T], gap: usize, end: usize)
    requires { (gap ≤ end) × (end ≤ length s.old) }
    ensures { s.new ≡ removed gap end T.zero s.old }
{
    move_down(s, gap, end);
    let from = end - gap;
    clear(&mut s[from..end]);
}
