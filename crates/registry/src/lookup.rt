// Lookup, on a store that is sized and sound.
mod compose;
pub(crate) mod resolve;
