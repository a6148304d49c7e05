ghost use Rattle.std.specs.Prelude.{IfOk};
ghost use Rattle.farkas_check.specs.Meaning.{IsLimit, IsTight};
ghost use Rattle.farkas_check.specs.Sizes.{IsDead, IsNarrow, IsSlim};
ghost use Rattle.farkas_check.specs.Tested.{Passes};
ghost use Rattle.farkas_check.specs.declared.question.Question.TheVariants as question;
ghost use Rattle.elimination.specs.Answers.{IsPivots};

use crate::strata::stratum;
use farkas_check::{Answer, Goal, Question};
use linear_terms::Row;
use std::alloc::{AllocError, Global};

/// Answers a question of any kind. The answer passes the test of its question, and is the truth
/// about rational points unless it is a limit. On a narrow question it is none; on a slim one it is
/// `Pivots` only where the question is dead, and else a limit only where a step of the search, or
/// of the test, leaves 128 bits. The one error is want of memory.
pub fn answer(alloc: Global, question: &Question) -> Result<Answer, AllocError>
    ensures passes { IfOk result (λ a. Passes question.now a) }
    ensures tight { IfOk result (λ a. (IsLimit a → ⊥) → IsTight question.now a) }
    ensures narrow { IsNarrow question.now → IfOk result (λ a. IsLimit a → ⊥) }
    ensures slim { IsSlim question.now → IfOk result (λ a. IsPivots a → IsDead question.now) }
{
    match question {
        Question::Infeasible(rows) => infeasible(alloc, rows.as_slice()),
        Question::Sup(goals) => sup(alloc, goals.as_slice()),
        Question::Stratum(asked) => stratum(alloc, asked),
    }
}

/// Answers whether no point makes the rows true. The answer passes the test of its question. On a
/// narrow question it is no limit; on a slim one it is a limit only where a step of the search, or
/// of the test, leaves 128 bits.
#[tactic(auto, using(crate::proofs::Narrowness::narrow))]
pub fn infeasible(alloc: Global, rows: &[Row]) -> Result<Answer, AllocError>
    ensures passes { IfOk result (λ a. Passes (question.Infeasible rows.now) a) }
    ensures tight { IfOk result (λ a. (IsLimit a → ⊥) → IsTight (question.Infeasible rows.now) a) }
    ensures narrow { IsNarrow (question.Infeasible rows.now) → IfOk result (λ a. IsLimit a → ⊥) }
    ensures slim { IsSlim (question.Infeasible rows.now) → IfOk result (λ a. IsPivots a → ⊥) }
{
    simplex::infeasible(alloc, rows)
}

/// Answers how great the objective gets over all points of all cases. The answer passes the test of
/// its question. On a narrow question it is no limit; on a slim one it is `Pivots` only where there
/// is no case, or one without points, and else a limit only where a step of the search, or of the
/// test, leaves 128 bits.
#[tactic(auto, using(crate::proofs::Narrowness::narrow))]
pub fn sup(alloc: Global, goals: &[Goal]) -> Result<Answer, AllocError>
    ensures passes { IfOk result (λ a. Passes (question.Sup goals.now) a) }
    ensures tight { IfOk result (λ a. (IsLimit a → ⊥) → IsTight (question.Sup goals.now) a) }
    ensures narrow { IsNarrow (question.Sup goals.now) → IfOk result (λ a. IsLimit a → ⊥) }
    ensures slim { IsSlim (question.Sup goals.now)
        → IfOk result (λ a. IsPivots a → IsDead (question.Sup goals.now)) }
{
    simplex::sup(alloc, goals)
}
