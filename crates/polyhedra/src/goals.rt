ghost use Rattle.std.specs.Prelude.{◌≡◌, List, map, IfOk};
ghost use Rattle.farkas_check.specs.declared.question.Goal.{Goal};
ghost use Rattle.farkas_check.specs.declared.question.Question.TheVariants.{Sup};
ghost use Rattle.polyhedra.specs.Kept.{goal_over, with_objectives};

use farkas_check::{Goal, Question};
use items::Items;
use linear_terms::{Case, Poly};
use std::alloc::{AllocError, Global};

/// Goals over the rows of cases. Their objectives are 0 until others are put in their places.
pub(crate) fn goals_over(alloc: Global, cases: &[Case]) -> Result<Items<Goal>, AllocError>
    ensures { IfOk result (λ goals. goals ≡ map goal_over cases.now) }
{
    let mut goals = Items::new(alloc);
    for case in cases {
        goals.push(goal_over(alloc, case)?)?;
    }
    Ok(goals)
}

fn goal_over(alloc: Global, case: &Case) -> Result<Goal, AllocError>
    ensures { IfOk result (λ goal. goal ≡ goal_over case.now) }
{
    let rows = case.rows.clone()?;
    Ok(Goal {
        rows,
        objective: Poly::constant(alloc, 0),
    })
}

/// The goals with objectives in the places of theirs, one after another.
pub(crate) fn with_objectives(goals: Items<Goal>, objectives: Items<Poly>) -> Items<Goal>
    ensures { result ≡ with_objectives goals objectives }
{
    let mut goals = goals.into_vec();
    let mut objectives = objectives.into_iter();
    for goal in goals.iter_mut() {
        if let Some(objective) = objectives.next() {
            goal.objective = objective;
        }
    }
    Items::from_vec(goals)
}

/// The goals of a question.
pub(crate) fn goals_in(alloc: Global, question: Question) -> Items<Goal>
    ensures { (goals : List Goal) → question ≡ Sup goals → result ≡ goals }
{
    match question {
        Question::Sup(goals) => goals,
        _ => Items::new(alloc),
    }
}
