// Standard output: answers are gathered in a buffer and written out. Where writing fails, standard error is told, and
// the failure is handed on, so that nothing more is written.
ghost use Rattle.std.specs.Prelude.{◌≡◌, ◌+◌, ◌≤◌, ◌↔◌, [], ◌∷◌, length, IfOk, OnOk, OnErr, IsOk};
ghost use Rattle.text.specs.Writing.{Writes};
ghost use Rattle.console.specs.Output.{SameBuffer};

use crate::failure::Failed;
use crate::{failure, retry};
use std::io;
use std::rt::Clock;
use text::Writer;

// What writing takes of the runtime: standard output, standard error for what fails, and the clock, to wait by.
pub trait Output: Print + Eprint + Clock {}

impl<R: Print + Eprint + Clock> Output for R {}

// More bytes than most answers have. The longer ones are written out as they grow, or find the buffer empty.
const SPARE: usize = 1024;

// Writes once, and answers how many bytes that took: 0 where it is to be made again.
fn put_some(rt: &impl Output, bytes: &[u8]) -> io::Result<usize>
    ensures { IfOk result (λ n. n ≤ length bytes.now) }
{
    match rt.write_some(bytes) {
        Ok(n) => Ok(n),
        Err(error) => {
            retry::again(rt, error)?;
            Ok(0)
        }
    }
}

// Writes all bytes.
fn put_all(rt: &impl Output, bytes: &[u8]) -> io::Result<()> {
    let mut done = 0;
    for _ in 0..retry::TRIES {
        if bytes.len() <= done {
            return Ok(());
        }
        done += put_some(rt, &bytes[done..])?;
    }
    Err(retry::too_many())
}

// What is left when the gathered text has been written: an empty buffer, or a failure, of which standard error is told.
// It is no part of `flush` because of its clause `same`, which alone says what failed means: that the writing failed.
fn emptied(rt: &impl Output, out: &mut Writer<'_>, written: io::Result<()>) -> Result<(), Failed>
    ensures same { IsOk result ↔ IsOk written }
    ensures empty { OnOk result (out.new.at ≡ 0) }
    ensures err { OnErr result (out.new.at ≡ out.old.at) }
    ensures same_buffer { SameBuffer out.old out.new }
{
    match written {
        Ok(()) => {
            out.at = 0;
            Ok(())
        }
        Err(error) => Err(failure::say(rt, "standard output", error)),
    }
}

// Writes out what is gathered, and leaves the buffer empty.
pub fn flush(rt: &impl Output, out: &mut Writer<'_>) -> Result<(), Failed>
    ensures empty { OnOk result (out.new.at ≡ 0) }
    ensures err { OnErr result (out.new.at ≡ out.old.at) }
    ensures same_buffer { SameBuffer out.old out.new }
{
    let written = put_all(rt, out.written());
    emptied(rt, out, written)
}

// Makes room for a line: what is gathered is written out where little room is left.
pub fn spare(rt: &impl Output, out: &mut Writer<'_>) -> Result<(), Failed>
    ensures room { 1024 ≤ length out.old.out.now → OnOk result (out.new.at + 1024 ≤ length out.new.out.now) }
    ensures free { out.old.at + 1024 ≤ length out.old.out.now → IsOk result × (out.new.at ≡ out.old.at) }
    ensures err { OnErr result (out.new.at ≡ out.old.at) }
    ensures same_buffer { SameBuffer out.old out.new }
{
    let free = out.out.len().saturating_sub(out.at);
    if free >= SPARE {
        return Ok(());
    }
    flush(rt, out)
}

pub fn line_end(out: &mut Writer<'_>)
    ensures { Writes out.old out.new ((10 ∷ []) ∷ []) }
{
    out.write_bytes(b"\n");
}
