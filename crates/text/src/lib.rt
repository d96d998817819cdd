// The words of the text protocol: read from a line, and written into a lent buffer. No public function has a
// `requires`: each tests its own bounds.
#![tactic(auto)]

mod decimal;
mod read;
mod words;
mod write;

pub use read::{first, read_byte, split_once};
pub use words::Words;
pub use write::Writer;
