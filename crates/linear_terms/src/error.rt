ghost use Rattle.std.specs.Prelude.{◌≡◌};
ghost use Rattle.linear_terms.specs.TermError.{wide};
ghost use Rattle.linear_terms.specs.declared.error.TermError.TheVariants.{Memory};

use std::alloc::{AllocError, AllocFailed};
use whole_numbers::Wide;

/// Why an operation has no answer.
#[derive(Clone, Copy, Debug, PartialEq, Eq)]
pub enum TermError {
    /// The product, where `times` holds, or else the sum of these two numbers is no number of 128
    /// bits.
    Wide {
        left: i128,
        right: i128,
        times: bool,
    },
    /// A product of two monomials has more than four columns.
    Degree,
    Memory,
}

impl From<Wide> for TermError {
    ghost from_gives = { λ step e. e ≡ wide step };

    fn from(step: Wide) -> TermError {
        TermError::Wide {
            left: step.left,
            right: step.right,
            times: step.times,
        }
    }
}

impl From<AllocError> for TermError {
    ghost from_gives = { λ _ e. e ≡ Memory };

    fn from(_e: AllocError) -> TermError {
        TermError::Memory
    }
}

impl<T: Drop> From<AllocFailed<T>> for TermError {
    ghost from_gives = { λ _ e. e ≡ Memory };

    fn from(_e: AllocFailed<T>) -> TermError {
        TermError::Memory
    }
}
