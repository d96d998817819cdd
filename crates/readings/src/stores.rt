// The readings of stores. Frames a, b and c are 1, 2 and 3.
use super::poses::{REFUSED, TAKEN};
use super::store::Bench;
use registry::store::StoreMut;
use std::io;

pub(crate) fn tolerance(rt: &impl Print) -> io::Result<()> {
    let mut bench = Bench {
        rt,
        store: StoreMut {
            head: &mut [0; 9],
            instants: &mut [0; 1],
            poses: &mut [0.0; 7],
        },
    };
    bench.open(1, 1)?;
    bench.rotated(TAKEN, b"done")?;
    bench.rotated(REFUSED, b"no 4 3ff000010c6f7a0c")
}

// Two samples of frame 2, with an age of 5.
fn aged<R: Print>(bench: &mut Bench<'_, '_, R>, second: u64, x: f64) -> io::Result<()> {
    bench.open_aged(1, 2, 5)?;
    bench.sample(2, 10, 10.0)?;
    bench.sample(2, second, x)?;
    // Instant 10 of them.
    bench.lookup(
        2,
        10,
        b"pose 4024000000000000 0000000000000000 0000000000000000 3ff0000000000000 0000000000000000 0000000000000000 0000000000000000",
    )
}

pub(crate) fn ages(rt: &impl Print) -> io::Result<()> {
    let mut bench = Bench {
        rt,
        store: StoreMut {
            head: &mut [0; 9],
            instants: &mut [0; 2],
            poses: &mut [0.0; 14],
        },
    };
    // 10 then 5 hold both.
    aged(&mut bench, 5, 5.0)?;
    bench.lookup(
        2,
        5,
        b"pose 4014000000000000 0000000000000000 0000000000000000 3ff0000000000000 0000000000000000 0000000000000000 0000000000000000",
    )?;
    bench.lookup(2, 4, b"no 11 2 5 10")?;
    // 10 then 4 hold only 10.
    aged(&mut bench, 4, 4.0)?;
    bench.lookup(2, 4, b"no 11 2 10 10")
}

// Translation x 0 at instant 0 and 4 at 4000000000.
pub(crate) fn interpolation(rt: &impl Print) -> io::Result<()> {
    let mut bench = Bench {
        rt,
        store: StoreMut {
            head: &mut [0; 9],
            instants: &mut [0; 2],
            poses: &mut [0.0; 14],
        },
    };
    bench.open(1, 2)?;
    bench.sample(2, 0, 0.0)?;
    bench.sample(2, 4000000000, 4.0)?;
    bench.lookup(
        2,
        1000000000,
        b"pose 3ff0000000000000 0000000000000000 0000000000000000 3ff0000000000000 0000000000000000 0000000000000000 0000000000000000",
    )?;
    bench.lookup(2, 4000000001, b"no 11 2 0 4000000000")
}

// Frame 2 from 10 to `end`, frame 3 from 20 to 30.
fn ranges<R: Print>(bench: &mut Bench<'_, '_, R>, end: u64) -> io::Result<()> {
    bench.open(2, 2)?;
    bench.sample(2, 10, 0.0)?;
    bench.sample(2, end, 0.0)?;
    bench.sample(3, 20, 0.0)?;
    bench.sample(3, 30, 0.0)
}

pub(crate) fn common_times(rt: &impl Print) -> io::Result<()> {
    let mut bench = Bench {
        rt,
        store: StoreMut {
            head: &mut [0; 13],
            instants: &mut [0; 4],
            poses: &mut [0.0; 28],
        },
    };
    ranges(&mut bench, 20)?;
    bench.common(2, 3, b"at 20")?;
    ranges(&mut bench, 19)?;
    bench.common(2, 3, b"no 12 3 20 30")?;
    bench.common(3, 2, b"no 12 3 20 30")
}

pub(crate) fn refusals(rt: &impl Print) -> io::Result<()> {
    let mut bench = Bench {
        rt,
        store: StoreMut {
            head: &mut [0; 21],
            instants: &mut [0; 4],
            poses: &mut [0.0; 28],
        },
    };
    // Frame 1 under 2, which is under 1, with a NaN.
    bench.open(4, 1)?;
    bench.translated(2, 1, 0.0, 0.0)?;
    bench.refused(1, 2, 0.0 / 0.0, b"no 7")?;
    // A frame under itself.
    bench.refused(3, 3, 0.0, b"no 5")
}

pub(crate) fn chain(rt: &impl Print) -> io::Result<()> {
    let mut bench = Bench {
        rt,
        store: StoreMut {
            head: &mut [0; 13],
            instants: &mut [0; 2],
            poses: &mut [0.0; 14],
        },
    };
    bench.open(2, 1)?;
    bench.translated(2, 1, 1.0, 0.0)?;
    bench.translated(3, 2, 0.0, 2.0)?;
    bench.lookup(
        3,
        0,
        b"pose 3ff0000000000000 4000000000000000 0000000000000000 3ff0000000000000 0000000000000000 0000000000000000 0000000000000000",
    )
}
