// Loading a customer's map: the records of a lent file added to a store that holds no frame.
#![tactic(auto)]

pub mod error;
pub mod load_map;
mod names;
mod records;
