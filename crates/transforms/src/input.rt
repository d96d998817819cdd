// The lines of standard input, each answered at its end.
use super::answer;
use super::memory::Memory;
use arrayvec::ArrayVec;
use console::failure::{self, Failed};
use console::input;
use console::output::{self, Output};
use text::Writer;

// How many bytes are read at once.
const CHUNK_BYTES: usize = 65536;

// The most bytes of a line.
const LINE_BYTES: usize = 512;

// The buffer of answers has room for the longest answer for people, a picture of 256 frames one below the other, which is
// less than 90,000 bytes.
pub(crate) const ANSWER_BYTES: usize = 131072;

// What has been read of a line. One that is too long is malformed, unless it is a comment.
#[derive(Drop)]
struct Line {
    bytes: ArrayVec<u8, LINE_BYTES>,
    too_long: bool,
}

impl Line {
    fn new() -> Line {
        Line {
            bytes: ArrayVec::new(),
            too_long: false,
        }
    }

    fn push(&mut self, byte: u8) {
        if self.bytes.try_push(byte).is_err() {
            self.too_long = true;
        }
    }

    // Answers the line, with a line end, and begins the next. An empty line and a comment get no answer.
    fn answer(
        &mut self,
        rt: &impl Output,
        memory: &mut Memory<'_>,
        out: &mut Writer<'_>,
    ) -> Result<(), Failed> {
        if let Some(first) = self.bytes.first()
            && *first != b'#'
        {
            output::spare(rt, out)?;
            let line: &[u8] = if self.too_long {
                b""
            } else {
                self.bytes.as_slice()
            };
            answer::answer(rt, line, memory, out)?;
            output::line_end(out);
        }
        self.bytes.clear();
        self.too_long = false;
        Ok(())
    }
}

// Answers all lines, also a last one with no line end. What has been answered is written out before more is waited for.
fn answer_all(
    rt: &(impl Input + Output),
    memory: &mut Memory<'_>,
    out: &mut Writer<'_>,
) -> Result<(), Failed> {
    let mut chunk = [0u8; CHUNK_BYTES];
    let mut line = Line::new();
    // More chunks than any input has.
    for _ in 0..u64::MAX {
        output::flush(rt, out)?;
        let count = match input::read(rt, &mut chunk) {
            Ok(count) => count,
            Err(error) => return Err(failure::say(rt, "standard input", error)),
        };
        if count == 0 {
            break;
        }
        for byte in &chunk[..count] {
            match byte {
                b'\n' => line.answer(rt, memory, out)?,
                _ => line.push(*byte),
            }
        }
    }
    line.answer(rt, memory, out)?;
    output::flush(rt, out)
}

// The program ends where standard output fails, which has been said by then.
pub(crate) fn run(rt: &(impl Input + Output), memory: &mut Memory<'_>, out: &mut Writer<'_>) {
    let _ = answer_all(rt, memory, out);
}
