// What is refused of a row, from src/core/buffer/error.rs.
ghost use Rattle.std.specs.Prelude.{◌≡◌};

use geometry::error::TransformError;
use thiserror::Error;

// Why a sample is not put in.
#[derive(Clone, Copy, Debug, PartialEq, Eq, Error)]
pub enum InsertError {
    // More samples would remain than the row has places.
    #[error("the row is full")]
    RowFull,
}

// Why no pose is given at an instant.
#[derive(Clone, Copy, Debug, PartialEq, Error)]
pub enum GetError {
    // The row holds no samples.
    #[error("no transform available")]
    NoTransformAvailable,
    // The row holds samples from `start` to `end` alone.
    #[error("out of range: {start} to {end}")]
    OutOfRange { start: u64, end: u64 },
    #[error("interpolation: {0}")]
    Interpolation(TransformError),
}

// By hand: the derive's `#[from]` has no contract.
impl From<TransformError> for GetError {
    ghost use Rattle.buffer.specs.declared.error.GetError.TheVariants as get;

    ghost from_gives = { λ cause error. error ≡ get.Interpolation cause };

    fn from(cause: TransformError) -> GetError {
        GetError::Interpolation(cause)
    }
}
