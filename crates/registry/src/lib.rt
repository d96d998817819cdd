// The frame tree over three lent slices, from src/core/registry of the Rust. The five calls are methods of
// `Store` and `StoreMut` and stand in files of their own. Each is the tests of 1 and 2 (`check`) and then
// the call on a store that has passed them (`checked`), over the parts: the layout of the words, the search
// for a frame's row, soundness, paths, addition, lookup and latest common time.
#![tactic(auto)]

mod add;
mod addition;
mod check;
pub mod checked;
mod common_time;
pub mod edges;
pub mod error;
mod get_transform;
mod latest_common_time;
pub mod layout;
pub mod limits;
mod lookup;
mod open;
mod parts;
mod paths;
mod remove_before;
mod rows;
mod search;
mod soundness;
pub mod store;
