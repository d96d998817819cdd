// The map of a customer: loaded into a store, and the book of its names. C lends three slices, so they are parameters.
ghost use Rattle.std.specs.Prelude.{◌≡◌};
ghost use Rattle.registry.specs.Calls.{store_of};
ghost use Rattle.map_file.specs.Book.{frame_in, part_in};
ghost use Rattle.map_loading.specs.Loading.{load_of};
ghost use Rattle.transforms_c.specs.Flat.{returned, flat_loading, flat_frame, flat_name};

use super::answer::{Answer, FrameAnswer, NameAnswer};
use map_file::book;
use map_loading::load_map;
use registry::store::StoreMut;

#[unsafe(no_mangle)]
pub extern "C" fn transforms_load_map(
    head: &mut [u64],
    instants: &mut [u64],
    poses: &mut [f64],
    map: &[u8],
) -> Answer
    ensures { returned result head.new instants.new poses.new
        ≡ flat_loading (load_of (store_of head.old instants.old poses.old) map.now) }
{
    let mut store = StoreMut {
        head,
        instants,
        poses,
    };
    Answer::from(load_map::load_map(&mut store, map))
}

#[unsafe(no_mangle)]
pub extern "C" fn transforms_map_frame(map: &[u8], name: &[u8]) -> FrameAnswer
    ensures { result ≡ flat_frame (frame_in map.now name.now) }
{
    FrameAnswer::from(book::frame_of(map, name))
}

#[unsafe(no_mangle)]
pub extern "C" fn transforms_map_name(map: &[u8], frame: u32) -> NameAnswer
    ensures { result ≡ flat_name (part_in map.now frame) }
{
    NameAnswer::from(book::name_of(map, frame))
}
