ghost use Rattle.std.specs.Prelude.{◌≡◌, ◌<◌, Ok, Some, length, slice_get, IfOk};
ghost use Rattle.syntax_tree.specs.WellFormed.{IsWellFormed};
ghost use Rattle.syntax_tree.specs.declared.program.Proc.{Proc as Procedure};
ghost use Rattle.execution.specs.Execution.{Fails};
ghost use Rattle.flow_graph.specs.FlowGraph.{CheckPlace};
ghost use Rattle.transition_formula.specs.Transition.{AreSolvable};
ghost use Rattle.posing.specs.Follows.{Asks};
ghost use Rattle.vocabularies.specs.Ends.{entry_width};
ghost use Rattle.vocabularies.specs.Procs.{IsProcOf};
ghost use Rattle.proc_summary.specs.declared.stop.NodeFormula.{NodeFormula};
ghost use Rattle.proc_summary.specs.Claims.{FitsFlow, FlowHolds};
ghost use Rattle.proc_summary.specs.Subject.{own_graph};
ghost use Rattle.report.specs.declared.verdict.Verdict.TheVariants.{Proved};
ghost use Rattle.report.specs.Claims.{IsRefuted};
ghost use Rattle.context.specs.Claims.{AreEntries, AreFlows, EntriesHold, EntryHolds, FitsVerdict, FlowsHold, IsEntryIf};
ghost use Rattle.context.specs.Entries.{entries_from};
ghost use Rattle.context.specs.Judging.{IsVerdictOnAll};
ghost use Rattle.context.specs.Verdicts.{verdict_on_cases_from, place_of, shown_columns_of, verdict_of};

use context::Assertion;
use farkas_check::Oracle;
use items::Items;
use linear_terms::Case;
use posing::{Log, WorkError};
use proc_summary::Flow;
use report::Verdict;
use std::alloc::Global;
use syntax_tree::Program;
use transition_formula::Formula;

/// The entry of each procedure, by the flows of all.
pub fn entries<O: Oracle>(
    alloc: Global,
    program: &Program,
    flows: &[Flow],
    oracle: &mut O,
    log: &mut Log,
) -> Result<Items<Option<Formula>>, WorkError>
    requires formed { IsWellFormed program.now }
    requires flows { AreFlows program.now flows.now }
    ensures follows { Asks O.asking oracle log result (entries_from program.now flows.now) }
    ensures fits { IfOk result (AreEntries program.now) }
    ensures holds { FlowsHold program.now flows.now → IfOk result (EntriesHold program.now) }
{
    context::entries(alloc, program, flows, oracle, log)
}

/// The verdict on an assertion of a procedure.
pub fn verdict<O: Oracle>(
    alloc: Global,
    program: &Program,
    assertion: Assertion,
    oracle: &mut O,
    log: &mut Log,
) -> Result<Verdict, WorkError>
    requires formed { IsWellFormed program.now }
    requires procedure { assertion.proc < length program.now.procs }
    requires assertion { assertion.check < length assertion.flow.now.checks }
    requires flow { (p : Procedure) → IsProcOf program.now assertion.proc p
        → FitsFlow program.now p assertion.flow.now }
    requires entry { (p : Procedure) → IsProcOf program.now assertion.proc p
        → IsEntryIf (entry_width program.now p) assertion.at_entry.now }
    ensures follows { (p : Procedure) (at : CheckPlace) (stop : NodeFormula)
        → IsProcOf program.now assertion.entry.proc p
        → slice_get (own_graph p).checks assertion.entry.check ≡ Some at
        → slice_get assertion.entry.flow.now.checks assertion.entry.check ≡ Some stop
        → Asks O.asking oracle log result
        (verdict_of (place_of program.now p) at.cond assertion.entry.at_entry.now stop.formula) }
    ensures sound { (p : Procedure) (at : CheckPlace) → IsProcOf program.now assertion.entry.proc p
        → slice_get (own_graph p).checks assertion.entry.check ≡ Some at
        → EntryHolds program.now assertion.entry.proc assertion.entry.at_entry.now
        → FlowHolds program.now assertion.entry.proc assertion.entry.flow.now → result ≡ Ok Proved
        → Fails program.now at.number → ⊥ }
    ensures refuted { IfOk result IsRefuted }
    ensures fits { (p : Procedure) → IsProcOf program.now assertion.entry.proc p
        → IfOk result (FitsVerdict (length (shown_columns_of program.now p))) }
{
    context::verdict(alloc, program, assertion, oracle, log)
}

/// The verdict on cases in which an assertion would fail.
pub fn verdict_on_cases<O: Oracle>(
    alloc: Global,
    rule: u32,
    cases: &[Case],
    oracle: &mut O,
    log: &mut Log,
) -> Result<Verdict, WorkError>
    requires { AreSolvable cases.now }
    ensures follows { Asks O.asking oracle log result (verdict_on_cases_from rule cases.now) }
    ensures known { IfOk result (IsVerdictOnAll cases.now) }
{
    context::verdict_on_cases(alloc, rule, cases, oracle, log)
}
