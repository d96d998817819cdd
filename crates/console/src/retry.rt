// A call of the system that failed for the moment only: a signal interrupted it, or a descriptor that does not block
// was not ready.
use std::io::ErrorKind;
use std::rt::Clock;
use std::time::Duration;
use std::{io, thread};

// How long a descriptor that is not ready is waited for, before the call is made again.
const MILLISECONDS: u64 = 1;

// More tries than any run makes.
pub(crate) const TRIES: u64 = u64::MAX;

// The error after the last of them.
pub(crate) fn too_many() -> io::Error {
    io::Error::from(ErrorKind::TimedOut)
}

// Waits, where the call that failed so is to be made again. Any other error is handed back.
pub(crate) fn again(rt: &impl Clock, error: io::Error) -> io::Result<()> {
    match error.kind() {
        ErrorKind::Interrupted => Ok(()),
        ErrorKind::WouldBlock => {
            thread::sleep(rt, Duration::from_millis(MILLISECONDS));
            Ok(())
        }
        _ => Err(error),
    }
}
