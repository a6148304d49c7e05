ghost use Rattle.std.specs.Prelude.{◌-◌, ◌^◌, IfOk};
ghost use Rattle.farkas_check.specs.Calm.{IsCalm, IsLiveAndCalm};
ghost use Rattle.farkas_check.specs.Meaning.{IsLimit, IsTight};
ghost use Rattle.farkas_check.specs.Tested.{Passes};
ghost use Rattle.simplex.specs.Answers.{IsWide, NamesStep};
ghost use Rattle.simplex.specs.Whole.{PivotsIn, IsStepOf};

use crate::answering::infeasible;
use crate::goals::sup;
use crate::strata::stratum;
use farkas_check::{Answer, Question};
use std::alloc::{AllocError, Global};

/// Answers a question of any kind. The answer passes the test of the question, and is the truth
/// about rational points unless it is a limit. A limit that names a step comes only to questions
/// that are not calm; `Pivots` comes only to dead questions, and where a case has more choices of
/// columns than turns.
pub fn answer(alloc: Global, question: &Question) -> Result<Answer, AllocError>
    ensures passes { IfOk result (λ a. Passes question.now a) }
    ensures tight { IfOk result (λ a. (IsLimit a → ⊥) → IsTight question.now a) }
    ensures wide { IsCalm question.now → IfOk result (λ a. IsWide a → ⊥) }
    ensures pivots { IfOk result (PivotsIn (2 ^ 127 - 1) question.now) }
    ensures calm { IsLiveAndCalm question.now → IfOk result (λ a. IsLimit a → ⊥) }
    ensures step { IfOk result (NamesStep (IsStepOf question.now)) }
{
    match question {
        Question::Infeasible(rows) => infeasible(alloc, rows.as_slice()),
        Question::Sup(goals) => sup(alloc, goals.as_slice()),
        Question::Stratum(asked) => stratum(alloc, asked),
    }
}
