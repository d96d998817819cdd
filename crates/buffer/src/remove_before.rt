// Wiping.
ghost use Rattle.std.specs.Prelude.{◌≡◌, ◌*◌, ◌≤◌, length, drop};
ghost use Rattle.time.specs.Reply.{answer};
ghost use Rattle.time.specs.Float.{zero64};
ghost use Rattle.buffer.specs.Words.{removed};
ghost use Rattle.buffer.specs.Samples.{remove_before};
ghost use Rattle.buffer.specs.Row.{outcome, holding, remove_before_row, FloatsFit};
ghost use Rattle.buffer.specs.Buffers.{samples, samples_mut, SameRow};

use super::buffer::{Buffer, BufferMut};
use super::kind::Kind;
use super::words;

// Takes the words of the first samples out, of `count`. The slices are not a row between the two moves, so this is no
// method of BufferMut.
#[tactic(auto, using(crate::proofs::Moves::removed_none))]
fn drop_words(instants: &mut [u64], poses: &mut [f64], dropped: usize, count: usize)
    requires { (dropped ≤ count) × (count ≤ length instants.old) × (length poses.old ≡ 7 * length instants.old) }
    ensures instants { instants.new ≡ removed dropped count 0 instants.old }
    ensures poses { poses.new ≡ removed (7 * dropped) (7 * count) zero64 poses.old }
    ensures fit { FloatsFit poses.old }
{
    // Without this, each call would copy every word to where it stands.
    if dropped == 0 {
        return;
    }
    words::remove(instants, dropped, count);
    words::remove(poses, 7 * dropped, 7 * count);
}

impl Buffer<'_> {
    // How many samples a wipe at t drops: those before t, of a moving row.
    #[tactic(auto, using(crate::proofs::Inserting::dropped_before))]
    fn count_before(&self, t: u64) -> usize
        ensures left { drop result (samples self.now) ≡ remove_before self.now.kind t (samples self.now) }
        ensures bound { result ≤ self.now.count }
    {
        match self.kind {
            Kind::Static => 0,
            Kind::Dynamic => self.place(t),
        }
    }
}

impl BufferMut<'_> {
    // Drops the first samples.
    pub(crate) fn drop_first(&mut self, dropped: usize)
        requires { dropped ≤ self.old.count }
        ensures row { SameRow self.old self.new }
        ensures left { outcome (answer self.new.count) self.new.instants.now self.new.poses.now
            ≡ holding (length self.old.instants.now) (drop dropped (samples_mut self.old)) }
        ensures fit { FloatsFit self.old.poses.now }
    {
        drop_words(self.instants, self.poses, dropped, self.count);
        self.count -= dropped;
    }

    // Drops a moving row's samples before t.
    #[tactic(auto, unfolding(crate::specs::Row::remove_before_row))]
    pub fn remove_before(&mut self, t: u64)
        ensures row { SameRow self.old self.new }
        ensures left { outcome (answer self.new.count) self.new.instants.now self.new.poses.now
            ≡ remove_before_row self.old.kind t self.old.count self.old.instants.now self.old.poses.now }
    {
        let dropped = self.view().count_before(t);
        self.drop_first(dropped);
    }
}
