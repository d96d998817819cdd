// What a query is served.
ghost use Rattle.std.specs.Prelude.{◌≡◌, ℕ, ◌-◌, ◌*◌, ◌<◌, drop, length, slice_index, IfErr};
ghost use Rattle.time.specs.Reply.{reply_by, hop};
ghost use Rattle.geometry.specs.Isometry.{interpolated};
ghost use Rattle.geometry.specs.Answers.{refusal_of as transform_refusal_of};
ghost use Rattle.buffer.specs.Samples.{range, served, query};
ghost use Rattle.buffer.specs.Row.{pose_of};
ghost use Rattle.buffer.specs.Answers.{refusal_of, IsUnserved};
ghost use Rattle.buffer.specs.Buffers.{samples};

use super::buffer::Buffer;
use super::error::GetError;
use super::kind::Kind;
use super::pose;
use geometry::error::TransformError;
use geometry::isometry::Isometry;

impl Buffer<'_> {
    // Why nothing is served.
    fn unserved(&self) -> GetError
        ensures refusal { (child : ℕ) → refusal_of child result ≡ (11, hop child (range (samples self.now))) }
        ensures error { IsUnserved result }
    {
        match self.times().range() {
            None => GetError::NoTransformAvailable,
            Some((start, end)) => GetError::OutOfRange { start, end },
        }
    }

    // The samples before and at a place, interpolated at t.
    fn between(&self, at: usize, t: u64) -> Result<Isometry, TransformError>
        requires { (0 < at) × (at < length self.now.instants.now) }
        ensures { reply_by transform_refusal_of result
            ≡ interpolated (pose_of (drop (7 * (at - 1)) self.now.poses.now)) (pose_of (drop (7 * at) self.now.poses.now))
            (slice_index self.now.instants.now (at - 1)) (slice_index self.now.instants.now at) t }
    {
        let before = at - 1;
        let first = pose::read_pose(self.poses, before);
        let second = pose::read_pose(self.poses, at);
        first.interpolated(second, self.instants[before], self.instants[at], t)
    }

    // The steps of `get`, for a layer that tests what comes out of several. The pose at t: a static row's at any
    // instant, a held one as it is, else its neighbours interpolated, which for rising instants refuses nothing.
    #[tactic(auto, using(crate::proofs::ServedLaws::served_empty, crate::proofs::Serving::first_served, crate::proofs::Serving::exact, crate::proofs::Serving::too_early, crate::proofs::Serving::too_late, crate::proofs::Serving::amid, crate::proofs::Serving::never_refused))]
    pub fn serve(&self, t: u64) -> Result<Isometry, GetError>
        ensures reply { (child : ℕ) → reply_by (refusal_of child) result ≡ served child self.now.kind (samples self.now) t }
        ensures error { IfErr result IsUnserved }
    {
        if self.count == 0 {
            return Err(GetError::NoTransformAvailable);
        }
        if self.kind == Kind::Static {
            return Ok(pose::read_pose(self.poses, 0));
        }
        let at = self.place(t);
        if at == self.count {
            return Err(self.unserved());
        }
        if self.instants[at] == t {
            return Ok(pose::read_pose(self.poses, at));
        }
        if at == 0 {
            return Err(self.unserved());
        }
        Ok(self.between(at, t)?)
    }

    // The pose at t, where it is finite.
    #[tactic(auto, unfolding(crate::specs::Samples::query, geometry::specs::Isometry::finite))]
    pub fn get(&self, t: u64) -> Result<Isometry, GetError>
        ensures { (child : ℕ) → reply_by (refusal_of child) result ≡ query child self.now.kind (samples self.now) t }
    {
        Ok(self.serve(t)?.finite()?)
    }
}
