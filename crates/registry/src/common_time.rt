// Latest common time, on a store that is sized and sound.
pub(crate) mod common;
