// Calls on a store, each reported by its line.
use super::poses::{moved, turned};
use super::report;
use geometry::isometry::Isometry;
use registry::error::RegistryError;
use registry::store::StoreMut;
use std::io;
use time::stamp::Stamp;

// A store, and where its readings are reported.
#[derive(Drop)]
pub(crate) struct Bench<'r, 'a, R> {
    pub(crate) rt: &'r R,
    pub(crate) store: StoreMut<'a>,
}

impl<R: Print> Bench<'_, '_, R> {
    // What a call that answers nothing but that it is done answers.
    fn done(&self, expected: &[u8], done: Result<(), RegistryError>) -> io::Result<()> {
        report::compare_written(self.rt, expected, |out| answers::write_done(out, done))
    }

    fn open_with(
        &mut self,
        rows: u64,
        samples: u64,
        max_age: Option<u64>,
        expected: &[u8],
    ) -> io::Result<()> {
        let result = self.store.open(rows, samples, max_age);
        self.done(expected, result)
    }

    pub(crate) fn open(&mut self, rows: u64, samples: u64) -> io::Result<()> {
        self.open_expecting(rows, samples, b"done")
    }

    // .. with an age.
    pub(crate) fn open_aged(&mut self, rows: u64, samples: u64, age: u64) -> io::Result<()> {
        report::asked_at(self.rt, "open", rows, samples, age)?;
        self.open_with(rows, samples, Some(age), b"done")
    }

    // .. that is refused, or not.
    pub(crate) fn open_expecting(
        &mut self,
        rows: u64,
        samples: u64,
        expected: &[u8],
    ) -> io::Result<()> {
        report::asked(self.rt, "open", rows, samples)?;
        self.open_with(rows, samples, None, expected)
    }

    // A pose that a moving frame under 1 takes.
    pub(crate) fn sample(&mut self, child: u32, t: u64, x: f64) -> io::Result<()> {
        let pose = moved(x, 0.0);
        report::asked_at(self.rt, "add", u64::from(child), 1, t)?;
        report::asked_pose(self.rt, pose)?;
        let result = self.store.add_transform(child, 1, Stamp::At(t), pose);
        self.done(b"done", result)
    }

    // A pose of a static frame.
    fn add_static(
        &mut self,
        child: u32,
        parent: u32,
        pose: Isometry,
        expected: &[u8],
    ) -> io::Result<()> {
        report::asked(self.rt, "add static", u64::from(child), u64::from(parent))?;
        report::asked_pose(self.rt, pose)?;
        let result = self.store.add_transform(child, parent, Stamp::Static, pose);
        self.done(expected, result)
    }

    pub(crate) fn translated(&mut self, child: u32, parent: u32, x: f64, y: f64) -> io::Result<()> {
        self.add_static(child, parent, moved(x, y), b"done")
    }

    pub(crate) fn refused(
        &mut self,
        child: u32,
        parent: u32,
        x: f64,
        expected: &[u8],
    ) -> io::Result<()> {
        self.add_static(child, parent, moved(x, 0.0), expected)
    }

    // Frame 2 under frame 1 with a rotation (w, 0, 0, 0).
    pub(crate) fn rotated(&mut self, w: u64, expected: &[u8]) -> io::Result<()> {
        self.add_static(2, 1, turned(w), expected)
    }

    // A frame seen from frame 1.
    pub(crate) fn lookup(&self, source: u32, t: u64, expected: &[u8]) -> io::Result<()> {
        report::asked_at(self.rt, "lookup", 1, u64::from(source), t)?;
        let result = self.store.as_ref().get_transform(1, source, t);
        report::compare_written(self.rt, expected, |out| answers::write_lookup(out, result))
    }

    pub(crate) fn common(&self, target: u32, source: u32, expected: &[u8]) -> io::Result<()> {
        report::asked(self.rt, "common", u64::from(target), u64::from(source))?;
        let result = self.store.as_ref().latest_common_time(target, source);
        report::compare_written(
            self.rt,
            expected,
            |out| answers::write_common_time(out, result),
        )
    }
}
