// What is refused of rotations and poses, from the Rust's geometry/quaternion/error.rs and geometry/transform/error.rs.
ghost use Rattle.std.specs.Prelude.{◌≡◌};

use thiserror::Error;
use time::error::TimeError;

#[derive(Clone, Copy, Debug, PartialEq, Eq, Error)]
pub enum QuaternionError {
    // The norm is below 2^-52.
    #[error("cannot normalize a zero-length quaternion")]
    ZeroLengthNormalization,
    // The norm is not finite.
    #[error("quaternion has non-finite components")]
    NonFinite,
}

#[derive(Clone, Copy, Debug, PartialEq, Error)]
pub enum TransformError {
    // The norm is not 1 within the tolerance.
    #[error("rotation is not a unit quaternion (norm: {0})")]
    NonUnitRotation(f64),
    #[error("transform contains non-finite values")]
    NonFiniteValues,
    #[error("timestamp error: {0}")]
    TimestampError(TimeError),
    #[error("quaternion error: {0}")]
    QuaternionError(QuaternionError),
}

// By hand: the derive's `#[from]` has no contract, and `?` would lose which error it was.
impl From<TimeError> for TransformError {
    ghost use Rattle.geometry.specs.declared.error.TransformError.TheVariants as transform;

    ghost from_gives = { λ cause error. error ≡ transform.TimestampError cause };

    fn from(cause: TimeError) -> TransformError {
        TransformError::TimestampError(cause)
    }
}

impl From<QuaternionError> for TransformError {
    ghost use Rattle.geometry.specs.declared.error.TransformError.TheVariants as transform;

    ghost from_gives = { λ cause error. error ≡ transform.QuaternionError cause };

    fn from(cause: QuaternionError) -> TransformError {
        TransformError::QuaternionError(cause)
    }
}
