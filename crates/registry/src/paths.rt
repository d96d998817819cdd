// The path of two frames: which edge has a frame, whether frames are in the tree, and where the climbs
// from two of them end.
pub(crate) mod climbs;
pub(crate) mod edges;
pub(crate) mod frames;
