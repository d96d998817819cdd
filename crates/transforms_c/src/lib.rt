// The calls, the pose operations and the lengths for C, as include/transforms.h declares them.
#![tactic(auto)]

pub mod answer;
mod flags;
mod flat;
pub mod lengths;
pub mod maps;
pub mod poses;
pub mod store;
