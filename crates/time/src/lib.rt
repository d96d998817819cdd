// Instants and their differences, from src/time of the Rust. The generic time point is the u64
// instant, in nanoseconds.
#![tactic(auto)]

pub mod error;
pub mod stamp;
pub mod timestamp;
