// What a store is opened with, and how much that may be.

// The most rows of a store.
pub const MOST_ROWS: u64 = 256;

// The most samples of a row.
pub const MOST_SAMPLES: u64 = 1024;

// A store's rows, its samples a row, and the age that a sample may reach, if there is one.
#[derive(Clone, Copy, Debug, PartialEq, Eq)]
pub struct Limits {
    pub rows: u64,
    pub samples: u64,
    pub max_age: Option<u64>,
}
