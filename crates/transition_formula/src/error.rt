ghost use Rattle.std.specs.Prelude.{◌≡◌};
ghost use Rattle.transition_formula.specs.declared.error.FormulaError.TheVariants.{Memory};

use std::alloc::{AllocError, AllocFailed};

/// Why a call on formulas has no answer.
#[derive(Clone, Copy, Debug, PartialEq, Eq)]
pub enum FormulaError {
    Memory,
}

impl From<AllocError> for FormulaError {
    ghost from_gives = { λ _ e. e ≡ Memory };

    fn from(_e: AllocError) -> FormulaError {
        FormulaError::Memory
    }
}

impl<T: Drop> From<AllocFailed<T>> for FormulaError {
    ghost from_gives = { λ _ e. e ≡ Memory };

    fn from(_e: AllocFailed<T>) -> FormulaError {
        FormulaError::Memory
    }
}
