// The line of a reading: what was asked, what is expected, what came out, and whether they agree.
use geometry::isometry::Isometry;
use libm::float::to_bits;
use std::io;
use text::Writer;

// More bytes than an answer has.
const ANSWER_BYTES: usize = 256;

pub(crate) fn put(rt: &impl Print, text: &[u8]) -> io::Result<()> {
    rt.write_all(text)
}

// What was asked: a name and two numbers.
pub(crate) fn asked(rt: &impl Print, name: &str, a: u64, b: u64) -> io::Result<()> {
    print!(rt; "{name} {a} {b}")
}

// .. and an instant or an age.
pub(crate) fn asked_at(rt: &impl Print, name: &str, a: u64, b: u64, t: u64) -> io::Result<()> {
    print!(rt; "{name} {a} {b} {t}")
}

// A name and a float.
pub(crate) fn asked_float(rt: &impl Print, name: &str, x: f64) -> io::Result<()> {
    let bits = to_bits(x);
    print!(rt; "{name} {bits:016x}")
}

// A pose, as the last of what was asked.
pub(crate) fn asked_pose(rt: &impl Print, pose: Isometry) -> io::Result<()> {
    let mut buf = [0u8; ANSWER_BYTES];
    let mut out = Writer::new(&mut buf);
    answers::write_pose(&mut out, pose);
    put(rt, b", ")?;
    put(rt, out.written())
}

// What is expected, and what came out.
fn compare(rt: &impl Print, expected: &[u8], got: &[u8]) -> io::Result<()> {
    put(rt, b": expected ")?;
    put(rt, expected)?;
    put(rt, b", got ")?;
    put(rt, got)?;
    put(
        rt,
        if expected == got {
            b", agrees\n"
        } else {
            b", DIFFERS\n"
        },
    )
}

// The same of what a function writes.
pub(crate) fn compare_written<F: FnOnce(&mut Writer<'_>)>(
    rt: &impl Print,
    expected: &[u8],
    write: F,
) -> io::Result<()>
    requires { F.IsAlwaysCallable write }
{
    let mut buf = [0u8; ANSWER_BYTES];
    let mut out = Writer::new(&mut buf);
    write(&mut out);
    compare(rt, expected, out.written())
}
