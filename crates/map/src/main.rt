// `map FILE` shows a rig maker the frames of his map file as an indented tree, or why the file is refused.
#![tactic(auto)]

mod arguments;
mod files;
mod frames;
mod lines;
mod names;
mod refusals;
mod tree;

use console::output::Output;
use map_file::file::MapFile;
use map_loading::load_map;
use registry::limits;
use registry::store::StoreMut;
use std::rt::{Env, Files};

// The largest file that is read. It stands on the stack.
const FILE_BYTES: usize = 1048576;

// More bytes than the name of a file that the system opens has.
const PATH_BYTES: usize = 4096;

// A store of 256 rows with one sample each, which is all that static frames need.
const ROWS: u64 = limits::MOST_ROWS;

const SAMPLES: u64 = 1;

// Loads the file into the store and prints what came of it.
fn show(rt: &impl Output, store: &mut StoreMut<'_>, map: &[u8]) {
    // Done: the slices of `main` have the lengths of these sizes.
    let _ = store.open(ROWS, SAMPLES, None);
    if let Err(error) = load_map::load_map(store, map) {
        refusals::print(rt, map, error);
    } else if let Ok(file) = MapFile::parse(map) {
        tree::print(rt, &store.as_ref(), &file);
    }
}

// Reads the file that the program is asked for and shows it.
fn run(
    rt: &(impl Env + Files + Output),
    store: &mut StoreMut<'_>,
    map: &mut [u8; FILE_BYTES],
    path: &mut [u8],
) {
    let Some(name) = arguments::file_name(rt, path) else {
        return;
    };
    let Some(count) = files::read(rt, name, map) else {
        return;
    };
    if let Some(file) = map.get(..count) {
        show(rt, store, file);
    }
}

fn main(rt: HostRuntime) {
    let mut head = [0u64; 1029];
    let mut instants = [0u64; 256];
    let mut poses = [0.0f64; 1792];
    let mut map = [0u8; FILE_BYTES];
    let mut path = [0u8; PATH_BYTES];
    let mut store = StoreMut::new(&mut head, &mut instants, &mut poses);
    run(&rt, &mut store, &mut map, &mut path);
}
