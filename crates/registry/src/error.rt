// Why a call is refused, named by src/core/registry/error.rs of the Rust. No program prints these messages: what people
// read is console's.
ghost use Rattle.std.specs.Prelude.{◌≡◌};
ghost use Rattle.registry.specs.Answers.{refusal_of, carried_by};

use buffer::error::InsertError;
use geometry::error::{QuaternionError, TransformError};
use thiserror::Error;
use time::error::TimeError;

// The range of a hop, from its first to its last instant, if it holds any sample.
pub type Covered = Option<(u64, u64)>;

// The refusals of the calls on a store, with 15 of an interpolation, in the order of their numbers; 18 and 19 are those of
// a load.
#[derive(Clone, Copy, Debug, PartialEq, Error)]
pub enum RegistryError {
    #[error("the sizes or the lengths of the slices are wrong")]
    Sizes,
    #[error("the store is unsound: its words break a rule")]
    UnsoundStore,
    #[error("transform contains non-finite values")]
    NonFiniteValues,
    #[error("rotation is not a unit quaternion (norm: {0})")]
    NonUnitRotation(f64),
    #[error("a frame cannot be its own parent")]
    SelfReferentialFrame,
    #[error("add_transform cannot change the child frame's parent ({0})")]
    ReparentingNotSupported(u32),
    #[error("inserting the transform would create a cycle in the frame tree")]
    CycleDetected,
    #[error("cannot mix static and dynamic transforms for the same child frame")]
    StaticDynamicConflict,
    #[error("frame {0} does not exist in the transform tree")]
    UnknownFrame(u32),
    #[error("no transform chain connects the frames")]
    Disconnected,
    #[error("frame {0} is not served at the requested instant")]
    NotFoundAt(u32, Covered),
    #[error("no instant is covered by every hop between the frames (frame {0})")]
    NoCommonTime(u32, Covered),
    #[error("the norm of the rotation is not finite")]
    NonFinite,
    #[error("cannot normalize a zero-length quaternion")]
    ZeroLengthNormalization,
    #[error("duration underflow")]
    DurationUnderflow,
    #[error("the tree is full")]
    TreeFull,
    #[error("the row is full")]
    RowFull,
}

// What geometry refuses keeps its number and its data. (By hand: the derive's `#[from]` has no contract.)
impl From<TransformError> for RegistryError {
    ghost use Rattle.geometry.specs.Answers.{refusal_of as transform_refusal_of};
    ghost use Rattle.registry.specs.Answers.{refusal_of};

    ghost from_gives = { λ cause error. refusal_of error ≡ transform_refusal_of cause };

    fn from(cause: TransformError) -> RegistryError {
        match cause {
            TransformError::NonFiniteValues => RegistryError::NonFiniteValues,
            TransformError::NonUnitRotation(norm) => RegistryError::NonUnitRotation(norm),
            TransformError::QuaternionError(QuaternionError::NonFinite) => RegistryError::NonFinite,
            TransformError::QuaternionError(QuaternionError::ZeroLengthNormalization) => {
                RegistryError::ZeroLengthNormalization
            }
            TransformError::TimestampError(TimeError::DurationUnderflow) => {
                RegistryError::DurationUnderflow
            }
        }
    }
}

impl From<InsertError> for RegistryError {
    ghost use Rattle.buffer.specs.Answers.{insert_refusal_of};
    ghost use Rattle.registry.specs.Answers.{refusal_of};

    ghost from_gives = { λ cause error. refusal_of error ≡ insert_refusal_of cause };

    fn from(cause: InsertError) -> RegistryError {
        match cause {
            InsertError::RowFull => RegistryError::RowFull,
        }
    }
}

// The data that a refusal carries. With `Nothing`, as document 01's table has it.
#[derive(Clone, Copy, Debug, PartialEq)]
pub enum Carried {
    Nothing,
    Norm(f64),
    Frame(u32),
    Hop(u32, Covered),
}

impl RegistryError {
    // The number of the refusal in the struct for C and in the text of the protocol.
    pub fn number(&self) -> u32
        ensures { result ≡ (refusal_of self.now).0 }
    {
        match self {
            RegistryError::Sizes => 1,
            RegistryError::UnsoundStore => 2,
            RegistryError::NonFiniteValues => 3,
            RegistryError::NonUnitRotation(_) => 4,
            RegistryError::SelfReferentialFrame => 5,
            RegistryError::ReparentingNotSupported(_) => 6,
            RegistryError::CycleDetected => 7,
            RegistryError::StaticDynamicConflict => 8,
            RegistryError::UnknownFrame(_) => 9,
            RegistryError::Disconnected => 10,
            RegistryError::NotFoundAt(..) => 11,
            RegistryError::NoCommonTime(..) => 12,
            RegistryError::NonFinite => 13,
            RegistryError::ZeroLengthNormalization => 14,
            RegistryError::DurationUnderflow => 15,
            RegistryError::TreeFull => 16,
            RegistryError::RowFull => 17,
        }
    }

    // What it carries there.
    pub fn carried(&self) -> Carried
        ensures { carried_by result ≡ (refusal_of self.now).1 }
    {
        match *self {
            RegistryError::NonUnitRotation(norm) => Carried::Norm(norm),
            RegistryError::ReparentingNotSupported(parent) => Carried::Frame(parent),
            RegistryError::UnknownFrame(frame) => Carried::Frame(frame),
            RegistryError::NotFoundAt(child, covered) => Carried::Hop(child, covered),
            RegistryError::NoCommonTime(child, covered) => Carried::Hop(child, covered),
            _ => Carried::Nothing,
        }
    }
}
