// The calls on a store that is lent. C lends three slices, so they are parameters of each call.
ghost use Rattle.std.specs.Prelude.{◌≡◌};
ghost use Rattle.registry.specs.Calls.{store_of, open_of, add_of, wipe_of, lookup_of, common_time_of};
ghost use Rattle.transforms_c.specs.Flags.{age_of_flag, stamp_of_flag};
ghost use Rattle.transforms_c.specs.Flat.{flat, returned, flat_outcome};

use super::answer::Answer;
use super::flags;
use geometry::isometry::Isometry;
use registry::store::{Store, StoreMut};

#[unsafe(no_mangle)]
pub extern "C" fn transforms_open(
    head: &mut [u64],
    instants: &mut [u64],
    poses: &mut [f64],
    rows: u64,
    samples: u64,
    has_max_age: u32,
    max_age: u64,
) -> Answer
    ensures { returned result head.new instants.new poses.new
        ≡ flat_outcome (open_of (store_of head.old instants.old poses.old) (record { rows = rows; capacity = samples; age = age_of_flag has_max_age max_age })) }
{
    let age = flags::max_age(has_max_age, max_age);
    let mut store = StoreMut {
        head,
        instants,
        poses,
    };
    Answer::from(store.open(rows, samples, age))
}

#[unsafe(no_mangle)]
pub extern "C" fn transforms_add_transform(
    head: &mut [u64],
    instants: &mut [u64],
    poses: &mut [f64],
    child: u32,
    parent: u32,
    is_static: u32,
    instant: u64,
    pose: Isometry,
) -> Answer
    ensures { returned result head.new instants.new poses.new
        ≡ flat_outcome (add_of (store_of head.old instants.old poses.old) (record { child = child; parent = parent; stamp = stamp_of_flag is_static instant; pose = pose })) }
{
    let stamp = flags::stamp(is_static, instant);
    let mut store = StoreMut {
        head,
        instants,
        poses,
    };
    Answer::from(store.add_transform(child, parent, stamp, pose))
}

#[unsafe(no_mangle)]
pub extern "C" fn transforms_get_transform(
    head: &[u64],
    instants: &[u64],
    poses: &[f64],
    target: u32,
    source: u32,
    instant: u64,
) -> Answer
    ensures { result ≡ flat (lookup_of (store_of head.now instants.now poses.now) target source instant) }
{
    let store = Store::new(head, instants, poses);
    Answer::from(store.get_transform(target, source, instant))
}

#[unsafe(no_mangle)]
pub extern "C" fn transforms_latest_common_time(
    head: &[u64],
    instants: &[u64],
    poses: &[f64],
    target: u32,
    source: u32,
) -> Answer
    ensures { result ≡ flat (common_time_of (store_of head.now instants.now poses.now) target source) }
{
    let store = Store::new(head, instants, poses);
    Answer::from(store.latest_common_time(target, source))
}

#[unsafe(no_mangle)]
pub extern "C" fn transforms_remove_before(
    head: &mut [u64],
    instants: &mut [u64],
    poses: &mut [f64],
    child: u32,
    instant: u64,
) -> Answer
    ensures { returned result head.new instants.new poses.new
        ≡ flat_outcome (wipe_of (store_of head.old instants.old poses.old) child instant) }
{
    let mut store = StoreMut {
        head,
        instants,
        poses,
    };
    Answer::from(store.remove_before(child, instant))
}
