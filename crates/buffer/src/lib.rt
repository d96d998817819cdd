// One frame's history over its part of the lent slices, from src/core/buffer of the Rust.
#![tactic(auto)]

pub mod buffer;
pub mod chunks;
pub mod coverage;
pub mod error;
pub mod get;
pub mod insert;
pub mod kind;
mod place;
mod pose;
pub mod remove_before;
pub mod sound;
pub mod times;
pub mod words;
pub mod zero;
