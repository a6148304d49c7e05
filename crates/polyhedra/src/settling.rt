ghost use Rattle.std.specs.Prelude.{◌≡◌, ◌++◌, All, IfOk, option_to_list};
ghost use Rattle.farkas_check.specs.declared.question.Question.TheVariants.{Infeasible};
ghost use Rattle.transition_formula.specs.Meaning.{Covers};
ghost use Rattle.transition_formula.specs.Rounds.{in_order};
ghost use Rattle.transition_formula.specs.Transition.{IsSolvable, AreSolvable};
ghost use Rattle.posing.specs.Follows.{Asks};
ghost use Rattle.posing.specs.Logs.{Adds, loss_notes};
ghost use Rattle.polyhedra.specs.Infeasibility.{infeasible};
ghost use Rattle.polyhedra.specs.Settle.{settled_formula, settled_cases, with_settled, settled_case, feasible, unless};
ghost use Rattle.polyhedra.specs.Laws.{HaveCanonicalRows, SettlingCovers};

use crate::infeasible::assent;
use crate::{Log, WorkError};
use farkas_check::{Oracle, Question};
use items::Items;
use linear_terms::{Case, Row, see_rows};
use std::alloc::{AllocError, Global};
use transition_formula::{Formula, FormulaError, Solved, solve};

/// Puts each case in order and drops those that the answers call infeasible. What is left holds of
/// all that the formula holds of.
pub fn settle<O: Oracle>(
    alloc: Global,
    f: &Formula,
    oracle: &mut O,
    log: &mut Log,
) -> Result<Formula, WorkError>
    requires { AreSolvable f.now.cases }
    ensures follows { Asks O.asking oracle log result (settled_formula f.now) }
    ensures covers { IfOk result (λ g. Covers g f.now) }
{
    let given = f.cases();
    see_cases(given);
    let cases = settle_cases(alloc, given, oracle, log)?;
    Ok(Formula::from_cases(f.from(), f.to(), cases))
}

/// A settled formula holds of all that the formula holds of, whatever true answers are given.
pub fn coverage_of_settling()
    ensures { SettlingCovers }
{}

/// Each case's rows have their monomials in print order, each once, with numbers that are not zero.
/// It goes over the cases and has no part in an answer.
pub(crate) fn see_cases(cases: &[Case])
    ensures { HaveCanonicalRows cases.now }
{
    for case in cases {
        see_rows(case.rows.as_slice());
    }
}

fn settle_cases<O: Oracle>(
    alloc: Global,
    cases: &[Case],
    oracle: &mut O,
    log: &mut Log,
) -> Result<Items<Case>, WorkError>
    requires { AreSolvable cases.now }
    ensures { Asks O.asking oracle log result (settled_cases cases.now) }
{
    let mut made = Items::new(alloc);
    for case in cases {
        made = add_settled(alloc, made, case, oracle, log)?;
    }
    Ok(made)
}

/// What is made, and what is left of a case behind it.
#[tactic(auto, using(posing::proofs::Following::following), unfolding(crate::specs::Settle::with_settled))]
fn add_settled<O: Oracle>(
    alloc: Global,
    made: Items<Case>,
    case: &Case,
    oracle: &mut O,
    log: &mut Log,
) -> Result<Items<Case>, WorkError>
    requires { IsSolvable case.now }
    ensures { Asks O.asking oracle log result (with_settled made case.now) }
{
    let left = settle_case(alloc, case, oracle, log)?;
    Ok(with_left(made, left)?)
}

/// What is left of a case in order, unless the answer calls it infeasible.
#[tactic(auto, using(posing::proofs::Following::following), unfolding(crate::specs::Settle::settled_case))]
fn settle_case<O: Oracle>(
    alloc: Global,
    case: &Case,
    oracle: &mut O,
    log: &mut Log,
) -> Result<Option<Case>, WorkError>
    requires { IsSolvable case.now }
    ensures { Asks O.asking oracle log result (settled_case case.now) }
{
    match solve_noted(alloc, case, log)? {
        None => Ok(None),
        Some(left) => feasible(alloc, left, oracle, log),
    }
}

/// The case in order, if anything is left of it; its losses are noted.
pub(crate) fn solve_noted(
    alloc: Global,
    case: &Case,
    log: &mut Log,
) -> Result<Option<Case>, FormulaError>
    requires { IsSolvable case.now }
    ensures noted { Adds (loss_notes (in_order case.now).losses) log.old log.new result }
    ensures exact { IfOk result (λ left. left ≡ (in_order case.now).left) }
{
    let mut losses = Items::new(alloc);
    let solved = solve(alloc, case, &mut losses)?;
    log.add_losses(alloc, losses.as_slice())?;
    match solved {
        Solved::Kept(left) => Ok(Some(left)),
        Solved::False => Ok(None),
    }
}

/// The case, unless the answer calls its rows infeasible. One without rows is not asked about.
#[tactic(auto, using(posing::proofs::Following::following), unfolding(crate::specs::Settle::feasible))]
fn feasible<O: Oracle>(
    alloc: Global,
    case: Case,
    oracle: &mut O,
    log: &mut Log,
) -> Result<Option<Case>, WorkError>
    ensures { Asks O.asking oracle log result (feasible case) }
{
    if case.rows.is_empty() {
        return Ok(Some(case));
    }
    let drops = are_refuted(alloc, &case.rows, oracle, log)?;
    Ok(unless(drops, case))
}

/// Whether the answer calls rows infeasible.
fn are_refuted<O: Oracle>(
    alloc: Global,
    rows: &Items<Row>,
    oracle: &mut O,
    log: &mut Log,
) -> Result<bool, WorkError>
    ensures { Asks O.asking oracle log result (infeasible rows.now) }
{
    let question = question_of(rows)?;
    assent(alloc, &question, oracle, log)
}

fn question_of(rows: &Items<Row>) -> Result<Question, AllocError>
    ensures { IfOk result (λ question. question ≡ Infeasible rows.now) }
{
    let rows = rows.clone()?;
    Ok(Question::Infeasible(rows))
}

/// The case, unless it is dropped.
fn unless(drops: bool, case: Case) -> Option<Case>
    ensures { result ≡ unless drops case }
{
    if drops { None } else { Some(case) }
}

fn with_left(made: Items<Case>, left: Option<Case>) -> Result<Items<Case>, AllocError>
    ensures { IfOk result (λ all. all ≡ made ++ option_to_list left) }
{
    let mut all = made;
    if let Some(case) = left {
        all.push(case)?;
    }
    Ok(all)
}
