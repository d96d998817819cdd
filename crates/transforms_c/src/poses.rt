// The operations on poses.
ghost use Rattle.std.specs.Prelude.{◌≡◌};
ghost use Rattle.geometry.specs.Isometry.{mul, inverse, interpolate};
ghost use Rattle.geometry.specs.Transform.{validate};
ghost use Rattle.transforms_c.specs.Flat.{flat_pose};

use super::answer::Answer;
use geometry::isometry::Isometry;
use geometry::transform;

#[unsafe(no_mangle)]
pub extern "C" fn transforms_mul(a: Isometry, b: Isometry) -> Answer
    ensures { result ≡ flat_pose (mul a b) }
{
    Answer::from(a.mul(b))
}

#[unsafe(no_mangle)]
pub extern "C" fn transforms_inverse(pose: Isometry) -> Answer
    ensures { result ≡ flat_pose (inverse pose) }
{
    Answer::from(pose.inverse())
}

#[unsafe(no_mangle)]
pub extern "C" fn transforms_interpolate(
    a: Isometry,
    b: Isometry,
    start: u64,
    end: u64,
    query: u64,
) -> Answer
    ensures { result ≡ flat_pose (interpolate a b start end query) }
{
    Answer::from(a.interpolate(b, start, end, query))
}

#[unsafe(no_mangle)]
pub extern "C" fn transforms_validate(pose: Isometry) -> Answer
    ensures { result ≡ flat_pose (validate pose) }
{
    Answer::from(transform::validate(pose))
}
