// What the Rust takes from its crate `libm` and from f64 itself.
#![tactic(auto)]

pub mod float;
pub mod root;
mod terms;
pub mod trig;

pub use root::sqrt;
pub use trig::{acos, sin};
