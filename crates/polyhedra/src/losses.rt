ghost use Rattle.std.specs.Prelude.{◌≡◌, [], ◌∷◌, Some, IfOk};
ghost use Rattle.linear_terms.specs.TermError.{cause};
ghost use Rattle.transition_formula.specs.Loss.{error_losses};
ghost use Rattle.posing.specs.Logs.{Adds, loss_notes};

use crate::Log;
use linear_terms::TermError;
use std::alloc::{AllocError, Global};
use transition_formula::Loss;

/// Notes an operation that has no answer; want of memory is an error here too.
pub(crate) fn note(alloc: Global, error: TermError, log: &mut Log) -> Result<(), AllocError>
    ensures noted { Adds (loss_notes (error_losses error)) log.old log.new result }
    ensures told { IfOk result (λ _. cause error ≡ Some error) }
{
    let loss = loss_of(error)?;
    log.add_losses(alloc, &[loss])
}

/// What is lost where an operation has no answer; want of memory is an error here too.
pub(crate) fn loss_of(error: TermError) -> Result<Loss, AllocError>
    ensures is { IfOk result (λ loss. loss ∷ [] ≡ error_losses error) }
    ensures told { IfOk result (λ _. cause error ≡ Some error) }
{
    match error {
        TermError::Wide { left, right, times } => Ok(Loss::Wide { left, right, times }),
        TermError::Degree => Ok(Loss::Degree),
        TermError::Memory => Err(AllocError),
    }
}
