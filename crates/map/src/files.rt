// A file read whole into a lent buffer. Where that fails, standard error says why.
ghost use Rattle.std.specs.Prelude.{◌≤◌, length, IfOk, IfSome};

use console::failure;
use std::io::{ErrorKind, Read};
use std::rt::Files;
use std::{fs, io};

// Reads until the buffer is full or the file ends, and answers how many bytes came.
fn fill(file: &mut impl Read, buf: &mut [u8]) -> io::Result<usize>
    ensures { IfOk result (λ n. n ≤ length buf.old) }
{
    let mut done = 0;
    // More turns than any file takes.
    for _ in 0..u64::MAX {
        if buf.len() <= done {
            break;
        }
        match file.read(&mut buf[done..]) {
            Ok(0) => break,
            Ok(n) => done += n,
            Err(error) if error.kind() == ErrorKind::Interrupted => {}
            Err(error) => return Err(error),
        }
    }
    Ok(done)
}

// How many bytes the file has, and none where it is larger than the buffer. One more read behind what fills the buffer
// tells a file that has ended from one that goes on.
fn read_whole(file: &mut impl Read, buf: &mut [u8]) -> io::Result<Option<usize>>
    ensures { IfOk result (λ size. IfSome size (λ n. n ≤ length buf.old)) }
{
    let count = fill(file, buf)?;
    let more = fill(file, &mut [0u8; 1])?;
    Ok((more == 0).then_some(count))
}

// Reads the file of that name, and answers how many bytes it has, which then stand at the buffer's start.
pub(crate) fn read(rt: &(impl Files + Eprint), path: &str, buf: &mut [u8]) -> Option<usize> {
    let mut file = match fs::open(rt, path) {
        Ok(file) => file,
        Err(error) => {
            failure::say(rt, path, error);
            return None;
        }
    };
    match read_whole(&mut file, buf) {
        Ok(Some(count)) => Some(count),
        Ok(None) => {
            let most = buf.len();
            let _ = eprintln!(rt; "{path}: larger than {most} bytes, the most that is read");
            None
        }
        Err(error) => {
            failure::say(rt, path, error);
            None
        }
    }
}
