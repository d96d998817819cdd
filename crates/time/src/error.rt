// What is refused of differences of instants, from src/time/error.rs.
use thiserror::Error;

#[derive(Clone, Copy, Debug, PartialEq, Eq, Error)]
pub enum TimeError {
    // The difference would be below zero.
    #[error("duration underflow")]
    DurationUnderflow,
}
