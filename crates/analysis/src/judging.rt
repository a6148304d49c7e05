ghost use Rattle.std.specs.Prelude.{◌≡◌, ◌<◌, ◌≤◌, ◌+◌, ◌^◌, ◌++◌, Some, length, slice_get, IfOk, OnOk};
ghost use Rattle.std.specs.List.{range_with_len};
ghost use Rattle.syntax_tree.specs.WellFormed.{IsWellFormed};
ghost use Rattle.syntax_tree.specs.declared.program.Proc.{Proc as Procedure};
ghost use Rattle.execution.specs.Execution.{Fails};
ghost use Rattle.flow_graph.specs.FlowGraph.{CheckPlace, graph_of};
ghost use Rattle.flow_graph.specs.Plain.{plain};
ghost use Rattle.posing.specs.Follows.{Asks};
ghost use Rattle.vocabularies.specs.Ends.{entry_width, named_columns_from};
ghost use Rattle.vocabularies.specs.Procs.{IsProcOf};
ghost use Rattle.proc_summary.specs.declared.stop.NodeFormula.{NodeFormula};
ghost use Rattle.proc_summary.specs.Claims.{FitsFlow, FlowHolds};
ghost use Rattle.proc_summary.specs.Subject.{own_graph};
ghost use Rattle.report.specs.declared.verdict.Verdict.TheVariants.{Proved};
ghost use Rattle.report.specs.Claims.{IsRefuted};
ghost use Rattle.context.specs.Claims.{AreEntries, AreFlows, EntriesHold, EntryHolds, FlowsHold, IsEntryIf};
ghost use Rattle.context.specs.Verdicts.{place_of, shown_columns_of, verdict_of};
ghost use Rattle.analysis.specs.Apart.{apart};
ghost use Rattle.analysis.specs.Judging.{numbered_assertion, assertion_by, column_names, global_names, judgements_on_all, judgement_of, place_in, unreached_judgement, with_judged};
ghost use Rattle.analysis.specs.Claims.{AddsJudged, AreJudged, AreRefuted, IsCheckOf, IsJudged, IsReadyText};

use crate::names::{add_names, global_names};
use crate::places::{TextPlace, place_in};
use crate::standing::{CheckAt, Standing, check_with, standing_of};
use context::{Assertion, graph_verdict};
use farkas_check::Oracle;
use flow_graph::Graph;
use items::Items;
use posing::{Log, Note, WorkError};
use proc_summary::Flow;
use report::{Judged, Verdict};
use std::alloc::{AllocError, Global};
use std::mem;
use syntax_tree::{Column, Name, Program};
use transition_formula::Formula;

/// What the assertions of a text are judged by: the program, where they stand in the text and in the
/// graphs of the procedures, and the entry and the flow of each procedure.
#[derive(Clone, Copy)]
pub(crate) struct JudgedText<'a> {
    pub(crate) program: &'a Program,
    pub(crate) places: &'a [TextPlace],
    pub(crate) standing: &'a Standing,
    pub(crate) entries: &'a [Option<Formula>],
    pub(crate) flows: &'a [Flow],
}

/// A verdict on each assertion, in the order of the text.
pub(crate) fn judgements_on_all<O: Oracle>(
    alloc: Global,
    program: &Program,
    places: &[TextPlace],
    entries: &[Option<Formula>],
    flows: &[Flow],
    oracle: &mut O,
    log: &mut Log,
) -> Result<Items<Judged>, WorkError>
    requires formed { IsWellFormed program.now }
    requires entries { AreEntries program.now entries.now }
    requires flows { AreFlows program.now flows.now }
    ensures follows { Asks O.asking oracle log result
        (judgements_on_all program.now places.now entries.now flows.now) }
    ensures sound { EntriesHold program.now entries.now → FlowsHold program.now flows.now
        → IfOk result (AreJudged program.now) }
    ensures refuted { IfOk result AreRefuted }
{
    let standing = standing_of(alloc, program)?;
    let text = JudgedText {
        program,
        places,
        standing: &standing,
        entries,
        flows,
    };
    let mut made = Items::new(alloc);
    for n in 0..program.checks.len() as u32 {
        made = with_judged(alloc, text, made, n + 1, oracle, log)?;
    }
    Ok(made)
}

/// The verdict on the assertion of a number, behind others.
#[tactic(auto, using(posing::proofs::Following::following), unfolding(crate::specs::Judging::with_judged))]
fn with_judged<O: Oracle>(
    alloc: Global,
    text: JudgedText<'_>,
    made: Items<Judged>,
    number: u32,
    oracle: &mut O,
    log: &mut Log,
) -> Result<Items<Judged>, WorkError>
    requires text { IsReadyText text }
    requires number { 1 ≤ number }
    ensures follows { Asks O.asking oracle log result
        (with_judged text.entry.program.now text.entry.places.now text.entry.entries.now
        text.entry.flows.now made number) }
    ensures added { IfOk result
        (AddsJudged text.entry.program.now text.entry.entries.now text.entry.flows.now made
        number) }
{
    let judged = judgement_of(alloc, text, number, oracle, log)?;
    let mut all = made;
    all.push(judged)?;
    Ok(all)
}

/// One that stands in no graph is not come to.
fn judgement_of<O: Oracle>(
    alloc: Global,
    text: JudgedText<'_>,
    number: u32,
    oracle: &mut O,
    log: &mut Log,
) -> Result<Judged, WorkError>
    requires text { IsReadyText text }
    requires number { 1 ≤ number }
    ensures follows { Asks O.asking oracle log result
        (judgement_of (place_in text.entry.places.now number)
        (numbered_assertion text.entry.program.now text.entry.entries.now text.entry.flows.now
        number)) }
    ensures sound { EntriesHold text.entry.program.now text.entry.entries.now
        → FlowsHold text.entry.program.now text.entry.flows.now
        → IfOk result (IsJudged text.entry.program.now number) }
    ensures refuted { IfOk result (λ judged. IsRefuted judged.verdict) }
{
    let at = place_in(text.places, number);
    match check_with(number, text.standing.checks.as_slice()) {
        Some(check) => judgement_at(alloc, text, at, check, oracle, log),
        None => Ok(unreached_judgement(alloc, at)),
    }
}

fn unreached_judgement(alloc: Global, at: TextPlace) -> Judged
    ensures { result ≡ unreached_judgement at }
{
    Judged {
        at: at.at,
        line: at.line,
        column: at.column,
        named: Items::new(alloc),
        shown: Items::new(alloc),
        verdict: Verdict::Proved,
        notes: Items::new(alloc),
    }
}

/// The verdict on one assertion, with the notes of finding it.
#[tactic(auto, using(posing::proofs::Following::following), unfolding(crate::specs::Judging::judgement_of))]
fn judgement_at<O: Oracle>(
    alloc: Global,
    text: JudgedText<'_>,
    at: TextPlace,
    check: CheckAt,
    oracle: &mut O,
    log: &mut Log,
) -> Result<Judged, WorkError>
    requires text { IsReadyText text }
    requires check { IsCheckOf text.program.now check }
    ensures follows { Asks O.asking oracle log result
        (judgement_of at
        (assertion_by text.entry.program.now text.entry.entries.now text.entry.flows.now check)) }
    ensures sound { EntriesHold text.entry.program.now text.entry.entries.now
        → FlowsHold text.entry.program.now text.entry.flows.now
        → IfOk result (IsJudged text.entry.program.now check.number) }
    ensures refuted { IfOk result (λ judged. IsRefuted judged.verdict) }
{
    let CheckAt { proc, check, .. } = check;
    let JudgedText {
        program,
        standing,
        entries,
        flows,
        ..
    } = text;
    let named = named_columns(alloc, program, proc)?;
    let shown = shown_columns(alloc, program, proc)?;
    let graphs = standing.graphs.as_slice();
    let graph = &graphs[proc as usize];
    let assertion = Assertion {
        proc,
        check,
        at_entry: &entries[proc as usize],
        flow: &flows[proc as usize],
    };
    let (verdict, notes) = verdict_apart(alloc, program, graph, assertion, oracle, log)?;
    Ok(Judged {
        at: at.at,
        line: at.line,
        column: at.column,
        named,
        shown,
        verdict,
        notes,
    })
}

/// The verdict and its notes. The log gains the answers, and no notes.
fn verdict_apart<O: Oracle>(
    alloc: Global,
    program: &Program,
    graph: &Graph,
    assertion: Assertion<'_>,
    oracle: &mut O,
    log: &mut Log,
) -> Result<(Verdict, Items<Note>), WorkError>
    requires formed { IsWellFormed program.now }
    requires procedure { assertion.proc < length program.now.procs }
    requires graph { plain graph.now ≡ graph_of program.now assertion.proc }
    requires assertion { assertion.check < length assertion.flow.now.checks }
    requires flow { (p : Procedure) → IsProcOf program.now assertion.proc p
        → FitsFlow program.now p assertion.flow.now }
    requires entry { (p : Procedure) → IsProcOf program.now assertion.proc p
        → IsEntryIf (entry_width program.now p) assertion.at_entry.now }
    ensures follows { (p : Procedure) (at : CheckPlace) (stop : NodeFormula)
        → IsProcOf program.now assertion.entry.proc p
        → slice_get (own_graph p).checks assertion.entry.check ≡ Some at
        → slice_get assertion.entry.flow.now.checks assertion.entry.check ≡ Some stop
        → Asks O.asking oracle log result
        (apart (verdict_of (place_of program.now p) at.cond assertion.entry.at_entry.now
        stop.formula)) }
    ensures sound { (p : Procedure) (at : CheckPlace)
        → IsProcOf program.now assertion.entry.proc p
        → slice_get (own_graph p).checks assertion.entry.check ≡ Some at
        → EntryHolds program.now assertion.entry.proc assertion.entry.at_entry.now
        → FlowHolds program.now assertion.entry.proc assertion.entry.flow.now
        → IfOk result (λ made. made.0 ≡ Proved → ¬ Fails program.now at.number) }
    ensures refuted { IfOk result (λ made. IsRefuted made.0) }
{
    let others = mem::replace(&mut log.notes, Items::new(alloc));
    let result = graph_verdict(alloc, program, graph, assertion, oracle, log);
    let notes = mem::replace(&mut log.notes, others);
    Ok((result?, notes))
}

fn named_columns(alloc: Global, program: &Program, proc: u32) -> Result<Items<Name>, AllocError>
    requires { proc < length program.now.procs }
    ensures { (p : Procedure) → IsProcOf program.now proc p
        → IfOk result (λ names. names ≡ global_names program.now ++ column_names p.columns) }
{
    let columns = program.procs.as_slice()[proc as usize].columns.as_slice();
    let mut names = global_names(alloc, program)?;
    add_names(columns, &mut names)?;
    Ok(names)
}

/// The numbers of the globals, and those of the columns that have a name.
fn shown_columns(alloc: Global, program: &Program, proc: u32) -> Result<Items<u32>, AllocError>
    requires formed { IsWellFormed program.now }
    requires procedure { proc < length program.now.procs }
    ensures { (p : Procedure) → IsProcOf program.now proc p
        → IfOk result (λ shown. shown ≡ shown_columns_of program.now p) }
{
    let globals = program.globals.len() as u32;
    let columns = program.procs.as_slice()[proc as usize].columns.as_slice();
    let mut shown = first_numbers(alloc, globals)?;
    add_named(globals, columns, &mut shown)?;
    Ok(shown)
}

/// The numbers below one.
fn first_numbers(alloc: Global, count: u32) -> Result<Items<u32>, AllocError>
    ensures { IfOk result (λ numbers. numbers ≡ range_with_len 0 count) }
{
    let mut numbers = Items::new(alloc);
    for number in 0..count {
        numbers.push(number)?;
    }
    Ok(numbers)
}

/// Adds the numbers, from one on, of the columns that have a name.
fn add_named(first: u32, columns: &[Column], numbers: &mut Items<u32>) -> Result<(), AllocError>
    requires { first + length columns.now < 2 ^ 32 }
    ensures { OnOk result (numbers.new ≡ numbers.old ++ named_columns_from first columns.now) }
{
    let mut number = first;
    for column in columns {
        if column.name.is_some() {
            numbers.push(number)?;
        }
        number += 1;
    }
    Ok(())
}
