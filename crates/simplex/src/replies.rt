ghost use Rattle.std.specs.Prelude.{◌-◌, ◌^◌, IfOk};
ghost use Rattle.farkas_check.specs.Calm.{IsCalm, IsLiveAndCalm};
ghost use Rattle.farkas_check.specs.Meaning.{IsLimit, IsTight};
ghost use Rattle.farkas_check.specs.Tested.{Passes};
ghost use Rattle.simplex.specs.Answers.{IsWide, NamesStep};
ghost use Rattle.simplex.specs.Whole.{PivotsIn, IsStepOf};

use crate::Endings;
use crate::goals::sup_with;
use crate::questions::answer;
use farkas_check::{Answer, Question};
use std::alloc::{AllocError, Global};

/// Answers a question of any kind as `answer` does, where the search of a supremum begins where the
/// last one over the same rows and columns ended.
pub fn answer_with(
    alloc: Global,
    question: &Question,
    endings: &mut Endings,
) -> Result<Answer, AllocError>
    ensures passes { IfOk result (λ a. Passes question.now a) }
    ensures tight { IfOk result (λ a. (IsLimit a → ⊥) → IsTight question.now a) }
    ensures wide { IsCalm question.now → IfOk result (λ a. IsWide a → ⊥) }
    ensures pivots { IfOk result (PivotsIn (2 ^ 127 - 1) question.now) }
    ensures calm { IsLiveAndCalm question.now → IfOk result (λ a. IsLimit a → ⊥) }
    ensures step { IfOk result (NamesStep (IsStepOf question.now)) }
{
    match question {
        Question::Sup(goals) => sup_with(alloc, goals.as_slice(), endings),
        _ => answer(alloc, question),
    }
}
