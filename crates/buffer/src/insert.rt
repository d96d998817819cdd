// Insertion with expiry.
ghost use Rattle.std.specs.Prelude.{◌≡◌, ℕ, leb, max, None, OnErr};
ghost use Rattle.time.specs.Reply.{reply_by, answer, ◌then◌};
ghost use Rattle.buffer.specs.Samples.{newest, survives};
ghost use Rattle.buffer.specs.Row.{outcome, insert_row};
ghost use Rattle.buffer.specs.Answers.{insert_refusal_of};
ghost use Rattle.buffer.specs.Buffers.{samples, SameRow};

use super::buffer::{Buffer, BufferMut};
use super::error::InsertError;
use super::{pose, words};
use geometry::isometry::Isometry;

// The oldest instant that survives beside the newest.
fn oldest(max_age: Option<u64>, newest: u64) -> u64
    ensures { (i : ℕ) → survives max_age newest i ≡ leb result i }
{
    max_age.map_or(0, |age| newest.saturating_sub(age))
}

impl Buffer<'_> {
    // The newest instant once t is put in.
    fn newest_with(&self, t: u64) -> u64
        ensures { result ≡ max t (newest (samples self.now)) }
    {
        match self.times().range() {
            None => t,
            Some((_, last)) => t.max(last),
        }
    }
}

impl BufferMut<'_> {
    // Puts a sample in, whatever its age.
    #[tactic(auto, using(crate::proofs::Inserting::replaces, crate::proofs::Inserting::refuses, crate::proofs::Inserting::inserts))]
    fn put(&mut self, t: u64, pose: Isometry) -> Result<(), InsertError>
        ensures row { SameRow self.old self.new }
        ensures count { OnErr result (self.new.count ≡ self.old.count) }
        ensures left { outcome (reply_by insert_refusal_of result then λ _. answer self.new.count) self.new.instants.now self.new.poses.now
            ≡ insert_row None t pose self.old.count self.old.instants.now self.old.poses.now }
    {
        let at = self.view().place(t);
        if at < self.count && self.instants[at] == t {
            pose::write_pose(self.poses, at, pose);
            return Ok(());
        }
        if self.count == self.instants.len() {
            return Err(InsertError::RowFull);
        }
        let (instants, poses) = (&mut *self.instants, &mut *self.poses);
        words::insert(instants, at, self.count, &[t]);
        pose::insert_pose(poses, at, self.count, pose);
        self.count += 1;
        Ok(())
    }

    // Drops what is too old beside the newest of all and puts the sample in, unless that is too old
    // itself. Where a sample is dropped there is room for another, so a full row is left as it came.
    pub fn insert(
        &mut self,
        max_age: Option<u64>,
        t: u64,
        pose: Isometry,
    ) -> Result<(), InsertError>
        ensures row { SameRow self.old self.new }
        ensures count { OnErr result (self.new.count ≡ self.old.count) }
        ensures left { outcome (reply_by insert_refusal_of result then λ _. answer self.new.count) self.new.instants.now self.new.poses.now
            ≡ insert_row max_age t pose self.old.count self.old.instants.now self.old.poses.now }
    {
        let held = self.view();
        let since = oldest(max_age, held.newest_with(t));
        let expired = held.place(since);
        self.drop_first(expired);
        if t < since {
            return Ok(());
        }
        self.put(t, pose)
    }
}
