use std::alloc::{AllocError, AllocFailed};
use tl_io::DepotError;
use tl_model::Damage;
use tl_types::NoMemory;
use tl_vault::LoadError;

/// Why a job or a save was given up.
#[derive(Clone, Copy, Debug, PartialEq, Eq)]
pub enum WorkError {
    /// The checkpoint store met a fault.
    StoreFault,
    /// The checkpoint store gave something else than was saved.
    Damaged(Damage),
    /// Memory ran out.
    NoMemory,
}

impl From<NoMemory> for WorkError {
    ghost use Rattle.std.specs.Prelude.{◌≡◌};
    ghost use Rattle.tl_work.specs.declared.error.WorkError.TheVariants.{NoMemory as no_memory};

    ghost from_gives = { λ _ e. e ≡ no_memory };

    fn from(_error: NoMemory) -> WorkError {
        WorkError::NoMemory
    }
}

impl From<AllocError> for WorkError {
    ghost use Rattle.std.specs.Prelude.{◌≡◌};
    ghost use Rattle.tl_work.specs.declared.error.WorkError.TheVariants.{NoMemory as no_memory};

    ghost from_gives = { λ _ e. e ≡ no_memory };

    fn from(_error: AllocError) -> WorkError {
        WorkError::NoMemory
    }
}

impl<T: Drop> From<AllocFailed<T>> for WorkError {
    ghost use Rattle.std.specs.Prelude.{◌≡◌};
    ghost use Rattle.tl_work.specs.declared.error.WorkError.TheVariants.{NoMemory as no_memory};

    ghost from_gives = { λ _ e. e ≡ no_memory };

    fn from(_failed: AllocFailed<T>) -> WorkError {
        WorkError::NoMemory
    }
}

impl From<LoadError> for WorkError {
    ghost use Rattle.std.specs.Prelude.{◌≡◌};
    ghost use Rattle.tl_work.specs.Errors.{of_load};

    ghost from_gives = { λ error e. e ≡ of_load error };

    fn from(error: LoadError) -> WorkError {
        match error {
            LoadError::Fault => WorkError::StoreFault,
            LoadError::Damaged(damage) => WorkError::Damaged(damage),
            LoadError::NoMemory => WorkError::NoMemory,
        }
    }
}

impl From<DepotError> for WorkError {
    ghost use Rattle.std.specs.Prelude.{◌≡◌};
    ghost use Rattle.tl_work.specs.Errors.{of_depot};

    ghost from_gives = { λ error e. e ≡ of_depot error };

    fn from(error: DepotError) -> WorkError {
        match error {
            DepotError::Failed => WorkError::StoreFault,
            DepotError::NoMemory => WorkError::NoMemory,
        }
    }
}
