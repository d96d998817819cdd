// A line of what is printed, put together in a buffer. By a Writer, as console writes.
use console::output::{self, Output};
use text::Writer;

// More bytes than the longest line has: 256 levels, a name of 32 bytes of four characters each and three figures.
pub(crate) const LINE_BYTES: usize = 1024;

// Ends the line and prints it. Where that fails, standard error is told, and the next line is printed all the same.
pub(crate) fn print(rt: &impl Output, out: &mut Writer<'_>) {
    output::line_end(out);
    let _ = output::flush(rt, out);
    out.at = 0;
}
