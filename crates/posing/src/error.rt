ghost use Rattle.std.specs.Prelude.{◌≡◌};
ghost use Rattle.posing.specs.declared.error.WorkError.TheVariants.{Memory};
ghost use Rattle.posing.specs.Errors.{work_error};

use farkas_check::AskError;
use std::alloc::{AllocError, AllocFailed};
use transition_formula::FormulaError;

/// Why a call has no answer.
#[derive(Clone, Copy, Debug, PartialEq, Eq)]
pub enum WorkError {
    /// The oracle refused a question.
    Refused,
    Memory,
}

impl From<AskError> for WorkError {
    ghost from_gives = { λ a e. e ≡ work_error a };

    fn from(error: AskError) -> WorkError {
        match error {
            AskError::Refused => WorkError::Refused,
            AskError::Memory => WorkError::Memory,
        }
    }
}

impl From<FormulaError> for WorkError {
    ghost from_gives = { λ _ e. e ≡ Memory };

    fn from(_e: FormulaError) -> WorkError {
        WorkError::Memory
    }
}

impl From<AllocError> for WorkError {
    ghost from_gives = { λ _ e. e ≡ Memory };

    fn from(_e: AllocError) -> WorkError {
        WorkError::Memory
    }
}

impl<T: Drop> From<AllocFailed<T>> for WorkError {
    ghost from_gives = { λ _ e. e ≡ Memory };

    fn from(_e: AllocFailed<T>) -> WorkError {
        WorkError::Memory
    }
}
