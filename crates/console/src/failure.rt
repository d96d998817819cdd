// A read or a write that failed, said on standard error.
use std::io;
use std::io::Write;

// More bytes than any error's words have.
const MOST: usize = 256;

// That a read or a write failed, and that standard error was told of it.
#[derive(Clone, Copy, Debug, PartialEq, Eq)]
pub struct Failed;

// The error in the system's words, without its number, which stands behind them.
fn words(error: io::Error, buf: &mut [u8]) -> &str {
    let mut room: &mut [u8] = &mut *buf;
    let written = write!(room, "{error}");
    let left = room.len();
    if written.is_err() {
        return "";
    }
    let end = buf.len().saturating_sub(left);
    let all = str::from_utf8(&buf[..end]).unwrap_or("");
    match all.split_once(" (os error ") {
        Some((words, _)) => words,
        None => all,
    }
}

// Says what it was that failed, and why.
pub fn say(rt: &impl Eprint, what: &str, error: io::Error) -> Failed {
    let mut buf = [0u8; MOST];
    let why = words(error, &mut buf);
    let _ = eprintln!(rt; "{what}: {why}");
    Failed
}
