ghost use Rattle.std.specs.Prelude.{◌≡◌, ◌≤◌, IfOk};
ghost use Rattle.syntax_tree.specs.Term.{term_of};
ghost use Rattle.posing.specs.Follows.{Asks};
ghost use Rattle.posing.specs.Logs.{Adds, loss_notes};
ghost use Rattle.polyhedra.specs.Laws.{HaveCanonicalRows};
ghost use Rattle.leaf_cases.specs.Conditions.{columns_at};
ghost use Rattle.leaf_cases.specs.Expression.{lists_of};
ghost use Rattle.context.specs.Ends.{IsCondition};
ghost use Rattle.context.specs.Verdicts.{falsity_of};
ghost use Rattle.point_rounds.specs.Closed.{IsStepOf};
ghost use Rattle.point_verdicts.specs.Claims.{IsPointAssertion};
ghost use Rattle.point_verdicts.specs.Exclusions.{every, is_check, leads_to_check, step_excluded};
ghost use Rattle.point_verdicts.specs.Parts.{AreFailures, HaveCanonicalSteps, HoldsWhereFalse};

use crate::arrivals::are_cases_excluded;
use crate::assertion::PointAssertion;
use farkas_check::Oracle;
use items::Items;
use leaf_cases::falsity;
use linear_terms::{Case, see_rows};
use point_rounds::{StepFrom, rows_at};
use point_steps::Target;
use posing::{Log, WorkError};
use std::alloc::Global;
use syntax_tree::Core;
use transition_formula::{Formula, FormulaError};

/// Each case of each step has rows whose monomials stand in print order, each once. It goes over
/// the cases and has no part in an answer.
pub(crate) fn see_steps(steps: &[StepFrom])
    ensures { HaveCanonicalSteps steps.now }
{
    for from in steps {
        see_cases(from.step.formula.cases());
    }
}

fn see_cases(cases: &[Case])
    ensures { HaveCanonicalRows cases.now }
{
    for case in cases {
        see_rows(case.rows.as_slice());
    }
}

/// The cases in which a condition of states of so many columns is false. What is lost in making
/// them is noted.
pub(crate) fn noted_falsity(
    alloc: Global,
    cond: &Core,
    columns: u32,
    log: &mut Log,
) -> Result<Formula, FormulaError>
    requires cond { IsCondition columns (term_of cond.now) }
    requires narrow { columns ≤ 63 }
    ensures noted { Adds (loss_notes (lists_of (term_of cond.now)).falsity.lost) log.old log.new
        result }
    ensures exact { IfOk result (λ f. f ≡ falsity_of columns (term_of cond.now)) }
    ensures fits { IfOk result (AreFailures columns) }
    ensures holds { IfOk result (HoldsWhereFalse columns (term_of cond.now)) }
{
    let mut losses = Items::new(alloc);
    let f = falsity(alloc, cond, columns, &mut losses)?;
    let _ = f.cases();
    log.add_losses(alloc, losses.as_slice())?;
    Ok(f)
}

/// How many columns the states of the procedure have.
pub(crate) fn columns_of(assertion: PointAssertion) -> u32
    requires { IsPointAssertion assertion }
    ensures { result ≡ columns_at assertion.entry.program.now assertion.entry.proc }
{
    let p = &assertion.program.procs.as_slice()[assertion.proc as usize];
    (assertion.program.globals.len() + p.columns.len() + 1) as u32
}

/// Whether each step that leads to the assertion is excluded where its condition is false. The
/// first that is not ends it.
pub(crate) fn are_steps_excluded<O: Oracle>(
    alloc: Global,
    assertion: PointAssertion,
    falsity: &Formula,
    oracle: &mut O,
    log: &mut Log,
) -> Result<bool, WorkError>
    requires assertion { IsPointAssertion assertion }
    requires falsity { AreFailures (columns_at assertion.program.now assertion.proc) falsity.now }
    ensures { Asks O.asking oracle log result
        (every (step_excluded assertion.entry.program.now assertion.entry.round.now.table
        assertion.entry.proc assertion.entry.check falsity.now.cases)
        assertion.entry.round.now.steps) }
{
    for from in assertion.round.steps.as_slice() {
        if !is_step_excluded(alloc, assertion, falsity, from, oracle, log)? {
            return Ok(false);
        }
    }
    Ok(true)
}

/// The same of one step.
#[tactic(auto, using(posing::proofs::Following::following), unfolding(crate::specs::Exclusions::step_excluded))]
fn is_step_excluded<O: Oracle>(
    alloc: Global,
    assertion: PointAssertion,
    falsity: &Formula,
    from: &StepFrom,
    oracle: &mut O,
    log: &mut Log,
) -> Result<bool, WorkError>
    requires assertion { IsPointAssertion assertion }
    requires falsity { AreFailures (columns_at assertion.program.now assertion.proc) falsity.now }
    requires step { IsStepOf assertion.program.now from.now }
    ensures { Asks O.asking oracle log result
        (step_excluded assertion.entry.program.now assertion.entry.round.now.table
        assertion.entry.proc assertion.entry.check falsity.now.cases from.now) }
{
    if !leads_to_check(assertion.proc, assertion.check, from) {
        return Ok(true);
    }
    let source = rows_at(
        assertion.heads,
        &assertion.round.table,
        assertion.proc,
        from.node,
    );
    let cases = from.step.formula.cases();
    are_cases_excluded(alloc, source, cases, falsity, oracle, log)
}

/// Whether a step leads to the assertion of this number in the procedure.
fn leads_to_check(proc: u32, check: u32, from: &StepFrom) -> bool
    ensures { result ≡ leads_to_check proc check from.now }
{
    from.proc == proc && is_check(check, from.step.target)
}

fn is_check(number: u32, target: Target) -> bool
    ensures { result ≡ is_check number target }
{
    match target {
        Target::Check(other) => number == other,
        Target::Head(_) | Target::Entry(_) | Target::Exit => false,
    }
}
