// Whether a row's words are sound.
ghost use Rattle.std.specs.Prelude.{◌≡◌, List, ℕ, Float, ◌*◌, ◌≤◌, length};
ghost use Rattle.std.specs.List.{list_all};
ghost use Rattle.geometry.specs.Transform.{is_valid};
ghost use Rattle.buffer.specs.Row.{pose_of, instants_sound, poses_sound, unused_zero, row_sound, samples_of};

use super::chunks::{all_zero, rising};
use super::kind::Kind;
use super::pose;
use super::times::Times;
use geometry::transform;

// Whether poses of seven floats each are valid.
fn all_valid(poses: &[[f64; 7]]) -> bool
    ensures { result ≡ list_all (λ floats. is_valid (pose_of floats)) poses.now }
{
    poses
        .iter()
        .all(|floats| transform::is_valid(pose::pose_of(floats)))
}

// A row's part of the lent slices, whose words have not been tested.
#[derive(Clone, Copy)]
pub struct UntestedRow<'a> {
    pub instants: &'a [u64],
    pub poses: &'a [f64],
    pub kind: Kind,
    pub count: usize,
}

impl UntestedRow<'_> {
    fn instants_sound(&self, max_age: Option<u64>) -> bool
        requires { self.now.count ≤ length self.now.instants.now }
        ensures { (poses : List Float) → result ≡ instants_sound max_age (length self.now.instants.now) self.now.kind (samples_of self.now.count self.now.instants.now poses) }
    {
        match self.kind {
            Kind::Static => self.count == 1 && self.instants[0] == 0,
            Kind::Dynamic => {
                if !rising(&self.instants[..self.count]) {
                    return false;
                }
                let times = Times {
                    instants: self.instants,
                    count: self.count,
                };
                times.is_fresh(max_age)
            }
        }
    }

    #[tactic(auto, using(crate::proofs::SoundTests::poses_tested))]
    fn poses_sound(&self) -> bool
        requires { 7 * self.now.count ≤ length self.now.poses.now }
        ensures { (instants : List ℕ) → result ≡ poses_sound (samples_of self.now.count instants self.now.poses.now) }
    {
        let (poses, _) = self.poses.as_chunks::<7>();
        all_valid(&poses[..self.count])
    }

    // Whether what follows the samples is zero.
    fn unused_zero(&self) -> bool
        requires { (self.now.count ≤ length self.now.instants.now) × (7 * self.now.count ≤ length self.now.poses.now) }
        ensures { result ≡ unused_zero self.now.count self.now.instants.now self.now.poses.now }
    {
        all_zero(&self.instants[self.count..]) && all_zero(&self.poses[7 * self.count..])
    }

    // Whether all rules of a row hold.
    #[tactic(auto, unfolding(crate::specs::Row::row_sound))]
    pub fn is_sound(&self, max_age: Option<u64>) -> bool
        requires { length self.now.poses.now ≡ 7 * length self.now.instants.now }
        ensures { result ≡ row_sound max_age self.now.kind self.now.count self.now.instants.now self.now.poses.now }
    {
        self.count <= self.instants.len()
            && self.instants_sound(max_age)
            && self.poses_sound()
            && self.unused_zero()
    }
}
