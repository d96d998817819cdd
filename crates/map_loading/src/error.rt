// Why a load is refused.
ghost use Rattle.std.specs.Prelude.{◌≡◌};
ghost use Rattle.registry.specs.Answers.{carried_by};
ghost use Rattle.map_loading.specs.Answers.{refusal_of};
ghost use Rattle.map_loading.specs.declared.error.LoadError.TheVariants.{Store, MapForm};

use map_file::form::FormError;
use registry::error::{Carried, RegistryError};
use thiserror::Error;

// What is refused of the store or of the file, or a record's number and what its addition is refused with.
#[derive(Clone, Copy, Debug, PartialEq, Error)]
pub enum LoadError {
    #[error("{0}")]
    Store(RegistryError),
    #[error("the store already holds frames")]
    StoreInUse,
    #[error("this is no map file, or it is damaged")]
    MapForm,
    #[error("record {0}: {1}")]
    Record(u32, RegistryError),
}

// By hand: the derive's `#[from]` has no contract.
impl From<RegistryError> for LoadError {
    ghost from_gives = { λ error load. load ≡ Store error };

    fn from(error: RegistryError) -> LoadError {
        LoadError::Store(error)
    }
}

impl From<FormError> for LoadError {
    ghost from_gives = { λ _ load. load ≡ MapForm };

    fn from(_error: FormError) -> LoadError {
        LoadError::MapForm
    }
}

impl LoadError {
    // The number of the refusal, which of a record is that of its addition.
    pub fn number(&self) -> u32
        ensures { result ≡ (refusal_of self.now).0 }
    {
        match self {
            LoadError::Store(error) => error.number(),
            LoadError::StoreInUse => 19,
            LoadError::MapForm => 18,
            LoadError::Record(_, error) => error.number(),
        }
    }

    // What it carries.
    pub fn carried(&self) -> Carried
        ensures { carried_by result ≡ (refusal_of self.now).1 }
    {
        match self {
            LoadError::Store(error) => error.carried(),
            LoadError::StoreInUse => Carried::Nothing,
            LoadError::MapForm => Carried::Nothing,
            LoadError::Record(_, error) => error.carried(),
        }
    }
}
