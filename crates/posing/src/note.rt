ghost use Rattle.std.specs.Prelude.{◌≡◌};

use farkas_check::{Limit, Ratio};
use items::Items;
use linear_terms::{Mono, Row};
use std::alloc::AllocError;
use transition_formula::Loss;

/// Why a row may not be kept: a point at which it is false, or a limit of the question about it.
#[derive(Debug, PartialEq, Eq, Drop)]
pub enum Witness {
    /// The columns of the question that was answered, in print order, and the number at each.
    Point { of: Items<Mono>, at: Items<Ratio> },
    Limit(Limit),
}

/// What is worth telling of a call's work.
#[derive(Debug, PartialEq, Eq, Drop)]
pub enum Note {
    /// Something was left out.
    Loss(Loss),
    /// A formula of so many cases was made one case.
    Squash(u32),
    /// So many rows were left out at the end of a case.
    Cut(u32),
    /// A question has no answer but this limit.
    Limit(Limit),
    /// A row of the procedure of this number was dropped.
    Dropped { proc: u32, row: Row, by: Witness },
    /// The facets of a hull were too many or too great to be found.
    Facets,
}

impl Clone for Witness {
    ghost is_clone = { λ a b. b ≡ a };

    fn clone(&self) -> Result<Witness, AllocError> {
        match self {
            Witness::Point { of, at } => {
                let of = of.clone()?;
                let at = at.clone()?;
                Ok(Witness::Point { of, at })
            }
            Witness::Limit(limit) => Ok(Witness::Limit(*limit)),
        }
    }
}

impl Clone for Note {
    ghost is_clone = { λ a b. b ≡ a };

    fn clone(&self) -> Result<Note, AllocError> {
        match self {
            Note::Loss(loss) => Ok(Note::Loss(*loss)),
            Note::Squash(cases) => Ok(Note::Squash(*cases)),
            Note::Cut(rows) => Ok(Note::Cut(*rows)),
            Note::Limit(limit) => Ok(Note::Limit(*limit)),
            Note::Dropped { proc, row, by } => {
                let row = row.clone()?;
                let by = by.clone()?;
                Ok(Note::Dropped {
                    proc: *proc,
                    row,
                    by,
                })
            }
            Note::Facets => Ok(Note::Facets),
        }
    }
}
