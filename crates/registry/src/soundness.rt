// Refusals 1 and 2: the sizes of a store and the rules of its words.
pub(crate) mod head_sound;
mod no_circle;
pub(crate) mod rows_sound;
pub(crate) mod sizes;
pub(crate) mod unused;
