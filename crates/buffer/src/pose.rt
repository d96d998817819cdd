// Poses at a stride of seven floats.
ghost use Rattle.std.specs.Prelude.{◌≡◌, ◌+◌, ◌*◌, ◌≤◌, length, drop};
ghost use Rattle.buffer.specs.Words.{replaced, inserted};
ghost use Rattle.buffer.specs.Row.{floats, pose_of, FloatsFit};

use super::words;
use geometry::isometry::Isometry;
use geometry::quaternion::Quaternion;
use geometry::vector3::Vector3;

// The pose that seven floats are.
pub(crate) fn pose_of(floats: &[f64; 7]) -> Isometry
    ensures { result ≡ pose_of floats.now }
{
    let [x, y, z, w, i, j, k] = *floats;
    Isometry {
        translation: Vector3 { x, y, z },
        rotation: Quaternion {
            w,
            x: i,
            y: j,
            z: k,
        },
    }
}

// The seven floats of a pose.
fn floats(pose: Isometry) -> [f64; 7]
    ensures { result ≡ floats pose }
{
    let Isometry {
        translation: t,
        rotation: r,
    } = pose;
    [t.x, t.y, t.z, r.w, r.x, r.y, r.z]
}

#[tactic(auto, using(crate::proofs::RowWords::pose_at))]
pub(crate) fn read_pose(poses: &[f64], place: usize) -> Isometry
    requires { 7 * place + 7 ≤ length poses.now }
    ensures { result ≡ pose_of (drop (7 * place) poses.now) }
{
    let (poses, _) = poses.as_chunks::<7>();
    pose_of(&poses[place])
}

// Stored as one array: copied from a slice, the seven floats would take the way over the stack.
fn write_floats(chunk: &mut [f64], pose: Isometry)
    requires { length chunk.old ≡ 7 }
    ensures { chunk.new ≡ floats pose }
{
    if let Some(chunk) = chunk.as_mut_array::<7>() {
        *chunk = floats(pose);
    }
}

#[tactic(auto, using(crate::proofs::Moves::put_replaced))]
pub(crate) fn write_pose(poses: &mut [f64], place: usize, pose: Isometry)
    requires { 7 * place + 7 ≤ length poses.old }
    ensures words { poses.new ≡ replaced (7 * place) (floats pose) poses.old }
    ensures fit { FloatsFit poses.old }
{
    let at = 7 * place;
    write_floats(&mut poses[at..at + 7], pose);
}

// Puts a pose in at `place`, before the others of the first `count`.
#[tactic(auto, using(crate::proofs::Moves::up_put))]
pub(crate) fn insert_pose(poses: &mut [f64], place: usize, count: usize, pose: Isometry)
    requires { (place ≤ count) × (7 * count + 7 ≤ length poses.old) }
    ensures words { poses.new ≡ inserted (7 * place) (7 * count) (floats pose) poses.old }
    ensures fit { FloatsFit poses.old }
{
    words::move_up(poses, 7 * place, 7 * count, 7);
    write_pose(poses, place, pose);
}
