// What the programs say to people: figures, refusals in words, lookups explained, pictures of the tree. Each function
// writes into a lent buffer the text that specs/ define, by a Writer and not by `Display`, for the reason that stands there.
// And how the programs read and write, so that no answer is lost.
#![tactic(auto, using(text::proofs::Behind::written_in_turn, crate::proofs::Turns::append_in_turn))]

pub mod dot;
mod edges;
pub mod failure;
pub mod figures;
pub mod input;
pub mod output;
pub mod refusals;
mod retry;
pub mod show;
pub mod tree;
pub mod why;
