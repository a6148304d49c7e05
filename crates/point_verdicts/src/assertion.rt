ghost use Rattle.std.specs.Prelude.{◌≡◌, List, Option, Some, IfOk, slice_get, true};
ghost use Rattle.syntax_tree.specs.declared.program.Proc.{Proc as Procedure};
ghost use Rattle.syntax_tree.specs.Term.{term_of};
ghost use Rattle.execution.specs.Execution.{Fails};
ghost use Rattle.flow_graph.specs.FlowGraph.{CheckPlace};
ghost use Rattle.transition_formula.specs.Transition.{Transition};
ghost use Rattle.posing.specs.Follows.{Asks};
ghost use Rattle.vocabularies.specs.Procs.{IsProcOf};
ghost use Rattle.leaf_cases.specs.Conditions.{columns_at};
ghost use Rattle.proc_summary.specs.Subject.{own_graph};
ghost use Rattle.context.specs.Ends.{IsCondition};
ghost use Rattle.point_rounds.specs.declared.round.PointState.{PointState};
ghost use Rattle.point_verdicts.specs.Claims.{IsPointAssertion, StandsAtPoints};
ghost use Rattle.point_verdicts.specs.Exclusions.{exclusion_of};
ghost use Rattle.point_verdicts.specs.Parts.{FailsByStep};

use crate::steps::{are_steps_excluded, columns_of, noted_falsity, see_steps};
use farkas_check::Oracle;
use flow_graph::Graph;
use point_rounds::PointRound;
use posing::{Log, WorkError};
use std::alloc::Global;
use syntax_tree::{Core, Program};

/// An assertion, with the rows at points and the steps that the last round left.
#[derive(Clone, Copy)]
pub struct PointAssertion<'a> {
    /// The program, which has the procedure.
    pub program: &'a Program,
    /// The number of the procedure.
    pub proc: u32,
    /// The graph of the procedure.
    pub graph: &'a Graph,
    /// The heads of its loops in ascending order.
    pub heads: &'a [u32],
    /// The place of the assertion among those of the graph.
    pub check: u32,
    /// The table and the steps that the last round left.
    pub round: &'a PointRound,
}

/// Whether the assertion can't fail by what is known at points. For each step that leads to it,
/// each case of the step and each case in which the condition is false, in order, it is asked
/// whether the rows of both are infeasible together with the rows of the table where the step
/// begins; where the answer is not Yes, once more with products of these rows. The first that is
/// not excluded ends it. True says that no execution from `main` fails there, as long as the
/// answers are true. What is lost is noted before the next question.
///
/// # Errors
///
/// A question that the oracle refused, or want of memory.
pub fn is_excluded<O: Oracle>(
    alloc: Global,
    assertion: PointAssertion,
    oracle: &mut O,
    log: &mut Log,
) -> Result<bool, WorkError>
    requires { IsPointAssertion assertion }
    ensures follows { (p : Procedure) (at : CheckPlace)
        → IsProcOf assertion.entry.program.now assertion.entry.proc p
        → slice_get (own_graph p).checks assertion.entry.check ≡ Some at
        → Asks O.asking oracle log result
        (exclusion_of assertion.entry.program.now assertion.entry.proc at.cond
        assertion.entry.check assertion.entry.round.now.steps assertion.entry.round.now.table) }
    ensures sound { (p : Procedure) (at : CheckPlace) (known : List (Option Transition))
        (states : List PointState) → IsProcOf assertion.entry.program.now assertion.entry.proc p
        → slice_get (own_graph p).checks assertion.entry.check ≡ Some at
        → StandsAtPoints assertion.entry.program.now known states assertion.entry.round.now
        → IfOk result
        (λ excluded. excluded ≡ true → Fails assertion.entry.program.now at.number → ⊥) }
{
    let cond = &assertion.graph.checks.as_slice()[assertion.check as usize].cond;
    is_never_false(alloc, assertion, cond, oracle, log)
}

/// The same by the condition of the assertion.
#[tactic(auto, using(posing::proofs::Following::following), unfolding(crate::specs::Exclusions::exclusion_of))]
fn is_never_false<O: Oracle>(
    alloc: Global,
    assertion: PointAssertion,
    cond: &Core,
    oracle: &mut O,
    log: &mut Log,
) -> Result<bool, WorkError>
    requires assertion { IsPointAssertion assertion }
    requires cond { IsCondition (columns_at assertion.program.now assertion.proc)
        (term_of cond.now) }
    ensures follows { Asks O.asking oracle log result
        (exclusion_of assertion.entry.program.now assertion.entry.proc (term_of cond.now)
        assertion.entry.check assertion.entry.round.now.steps assertion.entry.round.now.table) }
    ensures excludes { IfOk result (λ excluded. excluded ≡ true
        → FailsByStep assertion.entry.program.now assertion.entry.round.now assertion.entry.proc
        assertion.entry.check (term_of cond.now) → ⊥) }
{
    see_steps(assertion.round.steps.as_slice());
    let columns = columns_of(assertion);
    let falsity = noted_falsity(alloc, cond, columns, log)?;
    are_steps_excluded(alloc, assertion, &falsity, oracle, log)
}
