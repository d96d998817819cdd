// The readings of sizes: each store is opened in slices of the lengths that its sizes ask for.
use super::store::Bench;
use registry::store::StoreMut;
use std::io;

// The most words and floats that are lent: those of 257 rows, and of 1025 samples.
const HEAD_WORDS: usize = 1033;

const INSTANTS: usize = 1025;

const FLOATS: usize = 7175;

// Opens a store in the first words of each slice.
fn open_in(
    rt: &impl Print,
    rows: u64,
    samples: u64,
    (head, instants, poses): (usize, usize, usize),
    expected: &[u8],
) -> io::Result<()> {
    let mut all_head = [0u64; HEAD_WORDS];
    let mut all_instants = [0u64; INSTANTS];
    let mut all_poses = [0.0f64; FLOATS];
    let mut bench = Bench {
        rt,
        store: StoreMut::new(
            &mut all_head[..head.min(HEAD_WORDS)],
            &mut all_instants[..instants.min(INSTANTS)],
            &mut all_poses[..poses.min(FLOATS)],
        ),
    };
    bench.open_expecting(rows, samples, expected)
}

pub(crate) fn sizes(rt: &impl Print) -> io::Result<()> {
    open_in(rt, 256, 1, (1029, 256, 1792), b"done")?;
    open_in(rt, 1, 1024, (9, 1024, 7168), b"done")?;
    open_in(rt, 0, 1, (5, 0, 0), b"no 1")?;
    open_in(rt, 257, 1, (1033, 257, 1799), b"no 1")?;
    open_in(rt, 1, 0, (9, 0, 0), b"no 1")?;
    open_in(rt, 1, 1025, (9, 1025, 7175), b"no 1")
}
