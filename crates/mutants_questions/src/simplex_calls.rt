ghost use Rattle.std.specs.Prelude.{◌-◌, ◌^◌, IfOk};
ghost use Rattle.farkas_check.specs.Calm.{IsCalm, IsLiveAndCalm};
ghost use Rattle.farkas_check.specs.Meaning.{IsLimit, IsTight};
ghost use Rattle.farkas_check.specs.Tested.{Passes};
ghost use Rattle.farkas_check.specs.declared.question.Question.TheVariants as question;
ghost use Rattle.simplex.specs.Answers.{IsWide, NamesStep, PivotsOf, IsRowsStep};
ghost use Rattle.simplex.specs.Goals.{PivotsAmong, IsGoalsStep};
ghost use Rattle.simplex.specs.Strata.{PivotsOver, IsStratumStep};

use farkas_check::{Answer, Goal, Stratum};
use linear_terms::Row;
use std::alloc::{AllocError, Global};

/// Whether no point makes the rows true.
pub fn infeasible(alloc: Global, rows: &[Row]) -> Result<Answer, AllocError>
    ensures passes { IfOk result (λ a. Passes (question.Infeasible rows.now) a) }
    ensures tight { IfOk result (λ a. (IsLimit a → ⊥) → IsTight (question.Infeasible rows.now) a) }
    ensures wide { IsCalm (question.Infeasible rows.now) → IfOk result (λ a. IsWide a → ⊥) }
    ensures pivots { IfOk result (λ a. PivotsOf (2 ^ 127 - 1) rows.now a) }
    ensures calm { IsLiveAndCalm (question.Infeasible rows.now) → IfOk result (λ a. IsLimit a → ⊥) }
    ensures step { IfOk result (NamesStep (IsRowsStep rows.now)) }
{
    simplex::infeasible(alloc, rows)
}

/// How great the objective gets over all points of all cases.
pub fn sup(alloc: Global, goals: &[Goal]) -> Result<Answer, AllocError>
    ensures passes { IfOk result (λ a. Passes (question.Sup goals.now) a) }
    ensures tight { IfOk result (λ a. (IsLimit a → ⊥) → IsTight (question.Sup goals.now) a) }
    ensures wide { IsCalm (question.Sup goals.now) → IfOk result (λ a. IsWide a → ⊥) }
    ensures pivots { IfOk result (λ a. PivotsAmong (2 ^ 127 - 1) goals.now a) }
    ensures calm { IsLiveAndCalm (question.Sup goals.now) → IfOk result (λ a. IsLimit a → ⊥) }
    ensures step { IfOk result (NamesStep (IsGoalsStep goals.now)) }
{
    simplex::sup(alloc, goals)
}

/// Which relations between the terms and the lower terms are true at each point of each case.
pub fn stratum(alloc: Global, asked: &Stratum) -> Result<Answer, AllocError>
    ensures passes { IfOk result (λ a. Passes (question.Stratum asked.now) a) }
    ensures tight { IfOk result (λ a. (IsLimit a → ⊥) → IsTight (question.Stratum asked.now) a) }
    ensures wide { IsCalm (question.Stratum asked.now) → IfOk result (λ a. IsWide a → ⊥) }
    ensures pivots { IfOk result (λ a. PivotsOver (2 ^ 127 - 1) asked.now a) }
    ensures calm { IsLiveAndCalm (question.Stratum asked.now) → IfOk result (λ a. IsLimit a → ⊥) }
    ensures step { IfOk result (NamesStep (IsStratumStep asked.now)) }
{
    simplex::stratum(alloc, asked)
}
