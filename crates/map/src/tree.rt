// The frames of a map that is loaded, printed as a tree: each frame below its parent, two spaces further in, and the
// children of a frame in the order of their numbers.
use crate::frames::{self, MOST_FRAMES};
use crate::{lines, names};
use console::figures;
use console::output::Output;
use map_file::file::MapFile;
use registry::store::Store;
use text::Writer;

// Where the walk over the frames stands: next comes the first child of a frame from a number on, or the first root.
#[derive(Clone, Copy)]
struct Walk {
    under: Option<u32>,
    from: usize,
    level: usize,
}

// Where a frame is mounted on its parent, unless it has none.
fn put_mounting(out: &mut Writer<'_>, store: &Store<'_>, parent: Option<u32>, frame: u32) {
    let Some(parent) = parent else {
        return;
    };
    if let Ok(pose) = store.get_transform(parent, frame, 0) {
        out.write_bytes(b" at ");
        figures::put_vector(out, pose.translation);
    }
}

fn print_frame(
    rt: &impl Output,
    out: &mut Writer<'_>,
    store: &Store<'_>,
    file: &MapFile<'_>,
    parent: Option<u32>,
    frame: u32,
    level: usize,
) {
    console::tree::put_indent(out, level);
    names::put_frame(out, file, frame);
    put_mounting(out, store, parent, frame);
    lines::print(rt, out);
}

// The frame that comes next where the walk stands, unless none is left there.
fn next_frame(parents: &[Option<u32>], walk: Walk) -> Option<u32> {
    (0..MOST_FRAMES as u32)
        .zip(parents)
        .skip(walk.from)
        .find(|(_, parent)| **parent == walk.under)
        .map(|(frame, _)| frame)
}

// Prints every frame: the walk comes to each once, and once to the end of its children.
fn print_frames(
    rt: &impl Output,
    out: &mut Writer<'_>,
    store: &Store<'_>,
    file: &MapFile<'_>,
    parents: &[Option<u32>],
) {
    let mut walk = Walk {
        under: None,
        from: 0,
        level: 0,
    };
    for _ in 0..2 * MOST_FRAMES {
        walk = match (next_frame(parents, walk), walk.under) {
            (Some(frame), under) => {
                print_frame(rt, out, store, file, under, frame, walk.level);
                Walk {
                    under: Some(frame),
                    from: 0,
                    level: walk.level + 1,
                }
            }
            (None, Some(frame)) => Walk {
                under: frames::parent(parents, frame),
                from: frame as usize + 1,
                level: walk.level.saturating_sub(1),
            },
            (None, None) => return,
        };
    }
}

fn print_counts(rt: &impl Output, out: &mut Writer<'_>, frames: usize, records: u32) {
    out.write_bytes(b"frames: ");
    out.write_number(frames as u64);
    out.write_bytes(b", records: ");
    out.write_number(u64::from(records));
    lines::print(rt, out);
}

// Prints the map that has been loaded into the store.
pub(crate) fn print(rt: &impl Output, store: &Store<'_>, file: &MapFile<'_>) {
    let mut line = [0u8; lines::LINE_BYTES];
    let mut out = Writer::new(&mut line);
    let parents = frames::parents(file);
    print_counts(rt, &mut out, parents.len(), file.count());
    print_frames(rt, &mut out, store, file, parents.as_slice());
}
