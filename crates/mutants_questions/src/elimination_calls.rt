ghost use Rattle.std.specs.Prelude.{◌↔◌, IsTrue, IfOk};
ghost use Rattle.farkas_check.specs.Meaning.{IsLimit, IsTight};
ghost use Rattle.farkas_check.specs.Sizes.{IsDead, IsNarrow, IsSlim};
ghost use Rattle.farkas_check.specs.Tested.{Passes};
ghost use Rattle.elimination.specs.Answers.{IsPivots};
ghost use Rattle.elimination.specs.Echelon.{AreSmallRatios, IsReducedOf};

use farkas_check::{Answer, Question, Ratio};
use items::Items;
use std::alloc::{AllocError, Global};

/// The answer of a question of any kind.
pub fn answer(alloc: Global, question: &Question) -> Result<Answer, AllocError>
    ensures passes { IfOk result (λ a. Passes question.now a) }
    ensures tight { IfOk result (λ a. (IsLimit a → ⊥) → IsTight question.now a) }
    ensures narrow { IsNarrow question.now → IfOk result (λ a. IsLimit a → ⊥) }
    ensures slim { IsSlim question.now → IfOk result (λ a. IsPivots a → IsDead question.now) }
{
    elimination::answer(alloc, question)
}

/// Whether a question is narrow.
pub fn narrow(alloc: Global, question: &Question) -> Result<bool, AllocError>
    ensures { IfOk result (λ b. IsTrue b ↔ IsNarrow question.now) }
{
    elimination::narrow(alloc, question)
}

/// The reduced row echelon basis of a few small rows.
pub fn reduced_basis(
    alloc: Global,
    rows: &[Items<Ratio>],
) -> Result<Items<Items<Ratio>>, AllocError>
    requires { AreSmallRatios rows.now }
    ensures { IfOk result (λ lines. IsReducedOf rows.now lines) }
{
    elimination::reduced_basis(alloc, rows)
}
