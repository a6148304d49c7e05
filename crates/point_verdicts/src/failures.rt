ghost use Rattle.std.specs.Prelude.{◌≡◌, ◌++◌, [], IfOk, IsTrue, OnOk};
ghost use Rattle.transition_formula.specs.Composition.{after_case, losses_by};
ghost use Rattle.transition_formula.specs.Rounds.{in_order};
ghost use Rattle.transition_formula.specs.Transition.{fits};
ghost use Rattle.posing.specs.Follows.{Asks};
ghost use Rattle.posing.specs.Logs.{Adds, loss_notes};
ghost use Rattle.point_verdicts.specs.Exclusions.{every, failing_case, failure_excluded, losses_in_failing};
ghost use Rattle.point_verdicts.specs.Parts.{AreFailures, IsArrival, IsFailure, formula_of_case, only_case};

use crate::questions::is_refuted_twofold;
use farkas_check::Oracle;
use items::Items;
use linear_terms::Case;
use posing::{Log, WorkError};
use std::alloc::Global;
use transition_formula::{Formula, FormulaError, Loss, Solved, seq, solve};

/// Whether the assertion fails in none of the cases in which a step arrives at it so, and the
/// condition is false. The first that is not excluded ends it.
pub(crate) fn are_failures_excluded<O: Oracle>(
    alloc: Global,
    arriving: &Formula,
    falsity: &Formula,
    oracle: &mut O,
    log: &mut Log,
) -> Result<bool, WorkError>
    requires arriving { IsArrival arriving.now }
    requires falsity { AreFailures arriving.now.to falsity.now }
    ensures { Asks O.asking oracle log result
        (every (failure_excluded (only_case arriving.now)) falsity.now.cases) }
{
    for bad in falsity.cases() {
        if !is_failure_excluded(alloc, arriving, bad, oracle, log)? {
            return Ok(false);
        }
    }
    Ok(true)
}

/// The same of one case in which the condition is false. What is lost is noted before the
/// questions.
#[tactic(auto, using(posing::proofs::Following::following), unfolding(crate::specs::Exclusions::failure_excluded))]
fn is_failure_excluded<O: Oracle>(
    alloc: Global,
    arriving: &Formula,
    bad: &Case,
    oracle: &mut O,
    log: &mut Log,
) -> Result<bool, WorkError>
    requires arriving { IsArrival arriving.now }
    requires bad { IsFailure arriving.now.to bad.now }
    ensures { Asks O.asking oracle log result
        (failure_excluded (only_case arriving.now) bad.now) }
{
    match failing_left(alloc, arriving, bad, log)? {
        None => Ok(true),
        Some(left) => is_refuted_twofold(alloc, left.rows, oracle, log),
    }
}

/// What is left, in order, of the case in which a step arrives so and the condition is false; none
/// where nothing is left. What is lost is noted.
fn failing_left(
    alloc: Global,
    arriving: &Formula,
    bad: &Case,
    log: &mut Log,
) -> Result<Option<Case>, FormulaError>
    requires arriving { IsArrival arriving.now }
    requires bad { IsFailure arriving.now.to bad.now }
    ensures noted { Adds (loss_notes (losses_in_failing (only_case arriving.now) bad.now)) log.old
        log.new result }
    ensures exact { IfOk result
        (λ left. left ≡ (in_order (failing_case (only_case arriving.now) bad.now)).left) }
{
    let mut losses = Items::new(alloc);
    let failing = failing_case(alloc, arriving, bad, &mut losses)?;
    let solved = solve(alloc, &failing, &mut losses)?;
    log.add_losses(alloc, losses.as_slice())?;
    match solved {
        Solved::Kept(left) => Ok(Some(left)),
        Solved::False => Ok(None),
    }
}

/// The case in which a step arrives so, and then the one in which the condition is false, without
/// posts. What is lost is noted after the losses that are there.
fn failing_case(
    alloc: Global,
    arriving: &Formula,
    bad: &Case,
    losses: &mut Items<Loss>,
) -> Result<Case, FormulaError>
    requires arriving { IsArrival arriving.now }
    requires bad { IsFailure arriving.now.to bad.now }
    ensures exact { IfOk result (λ case. case ≡ failing_case (only_case arriving.now) bad.now) }
    ensures noted { OnOk result
        (losses.new ≡ losses.old
        ++ losses_by (after_case (only_case arriving.now) bad.now) bad.now) }
{
    let columns = arriving.to();
    let copy = bad.clone()?;
    let falsity = formula_of_case(alloc, columns, columns, copy)?;
    let failing = seq(alloc, arriving, &falsity, losses)?;
    case_without_posts(alloc, &failing.cases()[0])
}

/// The formula of one case.
pub(crate) fn formula_of_case(
    alloc: Global,
    from: u32,
    to: u32,
    case: Case,
) -> Result<Formula, FormulaError>
    requires { IsTrue (fits from to case) }
    ensures { IfOk result (λ f. f ≡ formula_of_case from to case) }
{
    let mut cases = Items::new(alloc);
    cases.push(case)?;
    Ok(Formula::from_cases(from, to, cases))
}

fn case_without_posts(alloc: Global, case: &Case) -> Result<Case, FormulaError>
    ensures { IfOk result
        (λ made. made ≡ record { aux = case.now.aux; rows = case.now.rows; post = [] }) }
{
    let rows = case.rows.clone()?;
    Ok(Case {
        aux: case.aux,
        rows,
        post: Items::new(alloc),
    })
}
