// What a pose must be to be added, from src/geometry/transform/mod.rs.
ghost use Rattle.std.specs.Prelude.{◌≡◌};
ghost use Rattle.time.specs.Reply.{reply_by};
ghost use Rattle.geometry.specs.Answers.{refusal_of};
ghost use Rattle.geometry.specs.Transform.{is_valid, validate};

use super::error::TransformError;
use super::isometry::Isometry;

pub const UNIT_NORM_TOLERANCE: f64 = 1e-6;

// The sums of squares whose roots are 1 within the tolerance.
const LOWEST_SQUARED: f64 = 0.9999980000010001;

const HIGHEST_SQUARED: f64 = 1.000002000001;

// The pose itself where it may be added, by its norm.
#[tactic(auto, using(crate::proofs::Absolute::unsigned_is_abs), unfolding(crate::specs::Transform::validate))]
fn by_norm(pose: Isometry) -> Result<Isometry, TransformError>
    ensures { reply_by refusal_of result ≡ validate pose }
{
    if !pose.is_finite() {
        return Err(TransformError::NonFiniteValues);
    }
    let norm = pose.rotation.norm();
    if (norm - 1.0).abs() > UNIT_NORM_TOLERANCE {
        return Err(TransformError::NonUnitRotation(norm));
    }
    Ok(pose)
}

// Whether `validate` gives the pose. The root is monotone, so the sum of squares is tested; x - x is 0 for a finite x, and NaN for any other.
#[tactic(auto, using(crate::proofs::Squares::differences, crate::proofs::ValidFast::valid_fast))]
pub fn is_valid(pose: Isometry) -> bool
    ensures { result ≡ is_valid pose }
{
    let t = pose.translation;
    let squared = pose.rotation.dot(pose.rotation);
    let zero = (t.x - t.x) + (t.y - t.y) + (t.z - t.z);
    (zero == 0.0) & (LOWEST_SQUARED <= squared) & (squared <= HIGHEST_SQUARED)
}

// The pose itself where it may be added. A valid one needs no root.
#[tactic(auto, using(crate::proofs::ValidFast::valid_answer))]
pub fn validate(pose: Isometry) -> Result<Isometry, TransformError>
    ensures { reply_by refusal_of result ≡ validate pose }
{
    if is_valid(pose) {
        return Ok(pose);
    }
    by_norm(pose)
}
