ghost use Rattle.std.specs.Prelude.{◌≡◌, ◌↔◌, ◌<◌, ◌≤◌, All, IsTrue, IfOk};
ghost use Rattle.farkas_check.specs.Sizes.{HasRationalPoint, IsNarrow};
ghost use Rattle.farkas_check.specs.declared.question.Question.TheVariants as question;
ghost use Rattle.elimination.specs.Answers.{is_no};
ghost use Rattle.elimination.specs.Narrow.{IsNarrowGoal, IsNarrowChange};

use crate::rooms::has_room;
use crate::sizes::{CASES, is_small_case, is_small_change, is_small_goal, is_small_stratum};
use farkas_check::{Answer, Change, Goal, Question, Stratum};
use linear_terms::Row;
use std::alloc::{AllocError, Global};

/// Whether a question is narrow: it has few columns, cases and rows, and small numbers. Each case
/// of a supremum question has a point, and each case of a stratum question leaves room in each
/// direction. The one error is want of memory.
pub fn narrow(alloc: Global, question: &Question) -> Result<bool, AllocError>
    ensures { IfOk result (λ b. IsTrue b ↔ IsNarrow question.now) }
{
    match question {
        Question::Infeasible(rows) => has_narrow_rows(alloc, rows.as_slice()),
        Question::Sup(goals) => has_narrow_goals(alloc, goals.as_slice()),
        Question::Stratum(stratum) => is_narrow_stratum(alloc, stratum),
    }
}

/// Whether the question whether no point makes the rows true is narrow.
#[tactic(auto, using(crate::proofs::NarrowCases::narrow_cases))]
fn has_narrow_rows(alloc: Global, rows: &[Row]) -> Result<bool, AllocError>
    ensures { IfOk result (λ b. IsTrue b ↔ IsNarrow (question.Infeasible rows.now)) }
{
    is_small_case(alloc, rows, &[], 64)
}

/// Whether the question how great the objective gets over all cases is narrow.
#[tactic(auto, using(crate::proofs::NarrowCases::narrow_cases))]
fn has_narrow_goals(alloc: Global, goals: &[Goal]) -> Result<bool, AllocError>
    ensures { IfOk result (λ b. IsTrue b ↔ IsNarrow (question.Sup goals.now)) }
{
    if goals.is_empty() || CASES < goals.len() {
        return Ok(false);
    }
    are_narrow(alloc, goals)
}

fn are_narrow(alloc: Global, goals: &[Goal]) -> Result<bool, AllocError>
    ensures { IfOk result (λ b. IsTrue b ↔ All IsNarrowGoal goals.now) }
{
    for goal in goals {
        if !is_narrow_goal(alloc, goal)? {
            return Ok(false);
        }
    }
    Ok(true)
}

#[tactic(auto, using(crate::proofs::NarrowCases::narrow_cases))]
fn is_narrow_goal(alloc: Global, goal: &Goal) -> Result<bool, AllocError>
    ensures { IfOk result (λ b. IsTrue b ↔ IsNarrowGoal goal.now) }
{
    if !is_small_goal(alloc, goal)? {
        return Ok(false);
    }
    has_point(alloc, goal.rows.as_slice())
}

/// Whether a stratum question is narrow.
#[tactic(auto, using(crate::proofs::NarrowStrata::narrow_small))]
fn is_narrow_stratum(alloc: Global, stratum: &Stratum) -> Result<bool, AllocError>
    ensures { IfOk result (λ b. IsTrue b ↔ IsNarrow (question.Stratum stratum.now)) }
{
    if !is_small_stratum(alloc, stratum)? {
        return Ok(false);
    }
    are_narrow_changes(alloc, stratum.cases())
}

fn are_narrow_changes(alloc: Global, cases: &[Change]) -> Result<bool, AllocError>
    ensures { IfOk result (λ b. IsTrue b ↔ All IsNarrowChange cases.now) }
{
    for case in cases {
        if !is_narrow_change(alloc, case)? {
            return Ok(false);
        }
    }
    Ok(true)
}

#[tactic(auto, using(crate::proofs::NarrowStrata::narrow_change_small))]
fn is_narrow_change(alloc: Global, case: &Change) -> Result<bool, AllocError>
    ensures { IfOk result (λ b. IsTrue b ↔ IsNarrowChange case.now) }
{
    if !is_small_change(alloc, case)? {
        return Ok(false);
    }
    has_room(alloc, case.rows.as_slice())
}

/// Whether some point makes the rows true.
#[tactic(auto, using(crate::proofs::NarrowCases::points))]
fn has_point(alloc: Global, rows: &[Row]) -> Result<bool, AllocError>
    requires { IsNarrow (question.Infeasible rows.now) }
    ensures { IfOk result (λ b. IsTrue b ↔ HasRationalPoint rows.now) }
{
    let answer = crate::infeasible(alloc, rows)?;
    Ok(is_no(&answer))
}

fn is_no(answer: &Answer) -> bool
    ensures { result ≡ is_no answer.now }
{
    matches!(answer, Answer::No(_))
}
