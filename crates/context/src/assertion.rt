ghost use Rattle.std.specs.Prelude.{◌≡◌, ◌<◌, Ok, Some, length, slice_get, IfOk};
ghost use Rattle.syntax_tree.specs.Term.{term_of};
ghost use Rattle.syntax_tree.specs.WellFormed.{IsWellFormed};
ghost use Rattle.syntax_tree.specs.declared.program.Proc.{Proc as Procedure};
ghost use Rattle.execution.specs.Execution.{Fails};
ghost use Rattle.flow_graph.specs.FlowGraph.{CheckPlace, graph_of};
ghost use Rattle.flow_graph.specs.Plain.{plain};
ghost use Rattle.transition_formula.specs.Transition.{AreSolvable};
ghost use Rattle.posing.specs.Follows.{Asks};
ghost use Rattle.posing.specs.Logs.{Adds, loss_notes};
ghost use Rattle.vocabularies.specs.Ends.{entry_width};
ghost use Rattle.vocabularies.specs.Procs.{IsProcOf};
ghost use Rattle.proc_summary.specs.declared.stop.NodeFormula.{NodeFormula};
ghost use Rattle.proc_summary.specs.Claims.{FitsFlow, FitsIf, FlowHolds, IsBetweenStates};
ghost use Rattle.proc_summary.specs.Subject.{own_graph};
ghost use Rattle.report.specs.declared.verdict.Verdict.TheVariants.{Proved};
ghost use Rattle.report.specs.Claims.{IsRefuted};
ghost use Rattle.context.specs.Claims.{EntryHolds, FitsVerdict, IsEntryIf};
ghost use Rattle.context.specs.Ends.{HasFew, HoldsAfter, HoldsBegun, HoldsFailing, IsCondition, IsFromStart, IsPlace, NoneFails, NoneFailsAt};
ghost use Rattle.context.specs.Verdicts.{entry_from_start, failure_verdict_from, failing_of, losses_in_failing, place_of, reach_from, shown_columns_of, verdict_of};

use crate::extending::extended_formula;
use crate::judging::verdict_on_cases;
use crate::place::{AssertionPlace, place_of};
use crate::stand::stand_of;
use checked_tree::settled_and_fitted;
use farkas_check::Oracle;
use flow_graph::{Graph, graph};
use items::Items;
use leaf_cases::falsity;
use posing::{Log, WorkError};
use proc_summary::Flow;
use report::Verdict;
use std::alloc::Global;
use syntax_tree::{Core, Program};
use transition_formula::{Formula, FormulaError, seq, with_posts};

/// An assertion of a procedure, with what is known where it stands.
#[derive(Clone, Copy)]
pub struct Assertion<'a> {
    /// The number of the procedure.
    pub proc: u32,
    /// The place of the assertion among those of the procedure.
    pub check: u32,
    /// The entry of the procedure.
    pub at_entry: &'a Option<Formula>,
    /// The flow of the procedure.
    pub flow: &'a Flow,
}

/// The verdict on an assertion of a procedure, by the entry of the procedure and its flow. Proved
/// says that no execution from `main` fails there, where the entry holds of the activations on a
/// stack from `main` and the flow of those of its procedure, as long as the answers are true.
/// Unproved carries the first case with a point, and the point, which makes its rows true;
/// UnprovedLimit the first with a limit, where no case has a point. The case tells the globals and
/// the named columns. What is lost is noted before the next question.
///
/// # Errors
///
/// A question that the oracle refused, or want of memory.
pub fn verdict<O: Oracle>(
    alloc: Global,
    program: &Program,
    assertion: Assertion,
    oracle: &mut O,
    log: &mut Log,
) -> Result<Verdict, WorkError>
    requires formed { IsWellFormed program.now }
    requires procedure { assertion.proc < length program.now.procs }
    requires assertion { assertion.check < length assertion.flow.now.checks }
    requires flow { (p : Procedure) → IsProcOf program.now assertion.proc p
        → FitsFlow program.now p assertion.flow.now }
    requires entry { (p : Procedure) → IsProcOf program.now assertion.proc p
        → IsEntryIf (entry_width program.now p) assertion.at_entry.now }
    ensures follows { (p : Procedure) (at : CheckPlace) (stop : NodeFormula)
        → IsProcOf program.now assertion.entry.proc p
        → slice_get (own_graph p).checks assertion.entry.check ≡ Some at
        → slice_get assertion.entry.flow.now.checks assertion.entry.check ≡ Some stop
        → Asks O.asking oracle log result
        (verdict_of (place_of program.now p) at.cond assertion.entry.at_entry.now stop.formula) }
    ensures sound { (p : Procedure) (at : CheckPlace) → IsProcOf program.now assertion.entry.proc p
        → slice_get (own_graph p).checks assertion.entry.check ≡ Some at
        → EntryHolds program.now assertion.entry.proc assertion.entry.at_entry.now
        → FlowHolds program.now assertion.entry.proc assertion.entry.flow.now → result ≡ Ok Proved
        → Fails program.now at.number → ⊥ }
    ensures refuted { IfOk result IsRefuted }
    ensures fits { (p : Procedure) → IsProcOf program.now assertion.entry.proc p
        → IfOk result (FitsVerdict (length (shown_columns_of program.now p))) }
{
    let graph = graph(alloc, program, assertion.proc)?;
    graph_verdict(alloc, program, &graph, assertion, oracle, log)
}

/// The same by the procedure's graph, which serves all its assertions.
///
/// # Errors
///
/// Those of `verdict`.
pub fn graph_verdict<O: Oracle>(
    alloc: Global,
    program: &Program,
    graph: &Graph,
    assertion: Assertion,
    oracle: &mut O,
    log: &mut Log,
) -> Result<Verdict, WorkError>
    requires formed { IsWellFormed program.now }
    requires procedure { assertion.proc < length program.now.procs }
    requires graph { plain graph.now ≡ graph_of program.now assertion.proc }
    requires assertion { assertion.check < length assertion.flow.now.checks }
    requires flow { (p : Procedure) → IsProcOf program.now assertion.proc p
        → FitsFlow program.now p assertion.flow.now }
    requires entry { (p : Procedure) → IsProcOf program.now assertion.proc p
        → IsEntryIf (entry_width program.now p) assertion.at_entry.now }
    ensures follows { (p : Procedure) (at : CheckPlace) (stop : NodeFormula)
        → IsProcOf program.now assertion.entry.proc p
        → slice_get (own_graph p).checks assertion.entry.check ≡ Some at
        → slice_get assertion.entry.flow.now.checks assertion.entry.check ≡ Some stop
        → Asks O.asking oracle log result
        (verdict_of (place_of program.now p) at.cond assertion.entry.at_entry.now stop.formula) }
    ensures sound { (p : Procedure) (at : CheckPlace) → IsProcOf program.now assertion.entry.proc p
        → slice_get (own_graph p).checks assertion.entry.check ≡ Some at
        → EntryHolds program.now assertion.entry.proc assertion.entry.at_entry.now
        → FlowHolds program.now assertion.entry.proc assertion.entry.flow.now → result ≡ Ok Proved
        → Fails program.now at.number → ⊥ }
    ensures refuted { IfOk result IsRefuted }
    ensures fits { (p : Procedure) → IsProcOf program.now assertion.entry.proc p
        → IfOk result (FitsVerdict (length (shown_columns_of program.now p))) }
{
    let Assertion {
        proc,
        check,
        at_entry,
        flow,
    } = assertion;
    let stand = &flow.checks.as_slice()[check as usize].formula;
    let cond = &graph.checks.as_slice()[check as usize].cond;
    let place = place_of(alloc, program, proc)?;
    verdict_at(alloc, &place, cond, at_entry, stand, oracle, log)
}

/// The same by the assertion's condition, and by the formula of where it stands.
#[tactic(auto, using(posing::proofs::Following::following), unfolding(crate::specs::Verdicts::verdict_of))]
fn verdict_at<O: Oracle>(
    alloc: Global,
    place: &AssertionPlace,
    cond: &Core,
    entry: &Option<Formula>,
    stand: &Option<Formula>,
    oracle: &mut O,
    log: &mut Log,
) -> Result<Verdict, WorkError>
    requires place { IsPlace place.now }
    requires cond { IsCondition place.now.columns (term_of cond.now) }
    requires entry { IsEntryIf place.now.entry entry.now }
    requires stand { FitsIf place.now.columns stand.now }
    ensures follows { Asks O.asking oracle log result
        (verdict_of place.now (term_of cond.now) entry.now stand.now) }
    ensures sound { result ≡ Ok Proved
        → NoneFails place.now (term_of cond.now) entry.now stand.now }
    ensures refuted { IfOk result IsRefuted }
    ensures fits { IfOk result (FitsVerdict (length place.now.shown)) }
{
    let begun = entry_from_start(alloc, place, entry)?;
    let stand = stand_of(alloc, place.columns, stand)?;
    let f = reach_formula(alloc, place, &begun, &stand, oracle, log)?;
    failure_verdict(alloc, place, cond, &f, oracle, log)
}

/// From the start to the procedure's entry, with any numbers in the other columns.
fn entry_from_start(
    alloc: Global,
    place: &AssertionPlace,
    entry: &Option<Formula>,
) -> Result<Formula, FormulaError>
    requires place { IsPlace place.now }
    requires entry { IsEntryIf place.now.entry entry.now }
    ensures exact { IfOk result (λ f. f ≡ entry_from_start place.now entry.now) }
    ensures fits { IfOk result (IsFromStart place.now.columns) }
    ensures few { IfOk result (HasFew 127) }
    ensures holds { IfOk result (HoldsBegun place.now.columns entry.now) }
{
    match entry {
        Some(f) => {
            let made = extended_formula(alloc, place.columns, f)?;
            Ok(made)
        }
        None => Ok(Formula::from_cases(0, place.columns, Items::new(alloc))),
    }
}

/// One formula and then the other, settled and fitted; losses are noted before the first question.
#[tactic(auto, using(posing::proofs::Following::following), unfolding(crate::specs::Verdicts::reach_from))]
fn reach_formula<O: Oracle>(
    alloc: Global,
    place: &AssertionPlace,
    begun: &Formula,
    stand: &Formula,
    oracle: &mut O,
    log: &mut Log,
) -> Result<Formula, WorkError>
    requires place { IsPlace place.now }
    requires begun { IsFromStart place.now.columns begun.now }
    requires few { HasFew 127 begun.now }
    requires stand { IsBetweenStates place.now.columns stand.now }
    ensures follows { Asks O.asking oracle log result (reach_from place.now begun.now stand.now) }
    ensures fits { IfOk result (IsFromStart place.now.columns) }
    ensures few { IfOk result (HasFew 64) }
    ensures holds { IfOk result (HoldsAfter begun.now stand.now) }
{
    let mut losses = Items::new(alloc);
    let f = seq(alloc, begun, stand, &mut losses)?;
    log.add_losses(alloc, losses.as_slice())?;
    settled_and_fitted(alloc, &f, &place.start, &place.full, oracle, log)
}

/// The verdict on the cases in which the condition is false.
#[tactic(auto, using(posing::proofs::Following::following), unfolding(crate::specs::Verdicts::failure_verdict_from))]
fn failure_verdict<O: Oracle>(
    alloc: Global,
    place: &AssertionPlace,
    cond: &Core,
    f: &Formula,
    oracle: &mut O,
    log: &mut Log,
) -> Result<Verdict, WorkError>
    requires place { IsPlace place.now }
    requires cond { IsCondition place.now.columns (term_of cond.now) }
    requires formula { IsFromStart place.now.columns f.now }
    requires few { HasFew 64 f.now }
    ensures follows { Asks O.asking oracle log result
        (failure_verdict_from place.now (term_of cond.now) f.now) }
    ensures sound { result ≡ Ok Proved → NoneFailsAt (term_of cond.now) f.now }
    ensures refuted { IfOk result IsRefuted }
    ensures fits { IfOk result (FitsVerdict (length place.now.shown)) }
{
    let failing = failing(alloc, place, cond, f, log)?;
    verdict_on_cases(alloc, place.full.rule(), failing.cases(), oracle, log)
}

/// The formula where the condition is false, with the posts of the columns that are told; what is
/// lost is noted.
fn failing(
    alloc: Global,
    place: &AssertionPlace,
    cond: &Core,
    f: &Formula,
    log: &mut Log,
) -> Result<Formula, FormulaError>
    requires place { IsPlace place.now }
    requires cond { IsCondition place.now.columns (term_of cond.now) }
    requires formula { IsFromStart place.now.columns f.now }
    requires few { HasFew 64 f.now }
    ensures noted { Adds (loss_notes (losses_in_failing place.now (term_of cond.now) f.now)) log.old
        log.new result }
    ensures exact { IfOk result (λ g. g ≡ failing_of place.now (term_of cond.now) f.now) }
    ensures solvable { IfOk result (λ g. AreSolvable g.cases) }
    ensures fits { IfOk result (IsFromStart (length place.now.shown)) }
    ensures holds { IfOk result (HoldsFailing place.now.shown (term_of cond.now) f.now) }
{
    let mut losses = Items::new(alloc);
    let falsity = falsity(alloc, cond, place.columns, &mut losses)?;
    let whole = seq(alloc, f, &falsity, &mut losses)?;
    let told = with_posts(alloc, &whole, place.shown.as_slice())?;
    let _ = falsity.cases();
    let _ = told.cases();
    log.add_losses(alloc, losses.as_slice())?;
    Ok(told)
}
