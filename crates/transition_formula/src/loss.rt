ghost use Rattle.std.specs.Prelude.{◌≡◌, ◌++◌, Some, OnOk};
ghost use Rattle.linear_terms.specs.TermError.{cause};
ghost use Rattle.transition_formula.specs.Loss.{loss_of, error_losses};

use crate::FormulaError;
use items::Items;
use linear_terms::TermError;

/// Something that was left out of a formula.
#[derive(Clone, Copy, Debug, PartialEq, Eq)]
pub enum Loss {
    /// The product, where `times` holds, or else the sum of these two numbers is no number of 128
    /// bits.
    Wide {
        left: i128,
        right: i128,
        times: bool,
    },
    /// A product of two monomials has more than four columns.
    Degree,
}

/// The loss that an error of an operation is. Want of memory is none.
pub fn loss_of(error: TermError) -> Option<Loss>
    ensures { result ≡ loss_of error }
{
    match error {
        TermError::Wide { left, right, times } => Some(Loss::Wide { left, right, times }),
        TermError::Degree => Some(Loss::Degree),
        TermError::Memory => None,
    }
}

/// Notes an error of an operation; want of memory is an error here too.
pub fn note(error: TermError, losses: &mut Items<Loss>) -> Result<(), FormulaError>
    ensures noted { OnOk result (losses.new ≡ losses.old ++ error_losses error) }
    ensures told { OnOk result (cause error ≡ Some error) }
{
    match loss_of(error) {
        Some(loss) => {
            losses.push(loss)?;
            Ok(())
        }
        None => Err(FormulaError::Memory),
    }
}
