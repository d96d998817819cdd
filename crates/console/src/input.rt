// Standard input.
ghost use Rattle.std.specs.Prelude.{◌≡◌, ◌≤◌, length, IfOk};

use crate::retry;
use std::io;
use std::io::Read;
use std::rt::Clock;

// Reads once, and answers how many bytes came, which stand at the start of the buffer: 0 at the end of the input.
pub fn read(rt: &(impl Input + Clock), buf: &mut [u8]) -> io::Result<usize>
    ensures count { IfOk result (λ n. n ≤ length buf.old) }
    ensures same_length { length buf.new ≡ length buf.old }
{
    let mut reader = rt.reader();
    for _ in 0..retry::TRIES {
        match reader.read(buf) {
            Ok(n) => return Ok(n),
            Err(error) => retry::again(rt, error)?,
        }
    }
    Err(retry::too_many())
}
