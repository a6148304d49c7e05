ghost use Rattle.std.specs.Prelude.{◌≡◌, ◌<◌, ◌≤◌, ◌++◌, All, Some, [], false, true, length, map, IfOk};
ghost use Rattle.std.specs.List.{Contains, slice_index_or};
ghost use Rattle.syntax_tree.specs.WellFormed.{IsWellFormed};
ghost use Rattle.syntax_tree.specs.declared.program.Proc.{Proc as Procedure};
ghost use Rattle.posing.specs.Follows.{Asks};
ghost use Rattle.posing.specs.Posing.{each};
ghost use Rattle.vocabularies.specs.Procs.{IsProcOf};
ghost use Rattle.leaf_cases.specs.Conditions.{AreKnown};
ghost use Rattle.leaf_cases.specs.Summaries.{AreMet};
ghost use Rattle.proc_summary.specs.Claims.{KnowsCallees};
ghost use Rattle.newton_rounds.specs.Claims.{AreKnownMembers, AreMetMembers, TellsLinear};
ghost use Rattle.newton_rounds.specs.Close.{group_closure};
ghost use Rattle.newton_rounds.specs.Laws.{KnowsOthers};
ghost use Rattle.newton_rounds.specs.Members.{members_of};
ghost use Rattle.analysis.specs.Apart.{apart};
ghost use Rattle.analysis.specs.Claims.{AddsFlow, AddsSummary, AreFlowsOf, FitFlows, FitsGroup, GroupIsMet, IsReadyGroup, KnowAllCallees};
ghost use Rattle.analysis.specs.Parts.{note_in, part_of, part_with, plain_part, recursive_part, summaries_by, with_flow, with_plain};

use crate::planning::{GroupKind, Planned};
use farkas_check::Oracle;
use items::Items;
use newton_rounds::{close, with_table};
use posing::{Log, Note, WorkError};
use proc_summary::{Flow, flow, project};
use std::alloc::{AllocError, Global};
use std::mem;
use syntax_tree::Program;
use transition_formula::Formula;

/// What is found of a group: a summary and a flow for each of its procedures, in their order, and
/// the notes of finding these. In a note of a dropped row the procedure is told by its place in the
/// program.
#[derive(Debug, Drop)]
pub struct Part {
    pub formulas: Items<Formula>,
    pub flows: Items<Flow>,
    pub notes: Items<Note>,
}

/// A summary and a flow for each procedure of a group, in their order.
#[derive(Debug, Drop)]
pub struct GroupSummaries {
    pub formulas: Items<Formula>,
    pub flows: Items<Flow>,
}

/// What is found of a group whose callees outside are known. The log gains the answers, and no
/// notes.
#[tactic(auto, using(posing::proofs::Following::following), unfolding(crate::specs::Parts::part_of))]
pub fn part_of<O: Oracle>(
    alloc: Global,
    program: &Program,
    planned: &Planned,
    known: &[Option<Formula>],
    oracle: &mut O,
    log: &mut Log,
) -> Result<Part, WorkError>
    requires formed { IsWellFormed program.now }
    requires known { AreKnown program.now known.now }
    requires ready { IsReadyGroup program.now planned.now known.now }
    ensures follows { Asks O.asking oracle log result (part_of program.now planned.now known.now) }
    ensures fits { IfOk result
        (λ part. FitsGroup program.now planned.now.procs part.formulas part.flows) }
    ensures met { AreMet program.now known.now
        → IfOk result (λ part. GroupIsMet program.now planned.now.procs part.formulas part.flows) }
{
    let (made, notes) = summaries_apart(alloc, program, planned, known, oracle, log)?;
    Ok(part_with(alloc, planned.procs.as_slice(), made, notes)?)
}

/// A part of these summaries and flows, with notes that tell procedures by their places in the
/// group.
pub fn part_with(
    alloc: Global,
    procs: &[u32],
    made: GroupSummaries,
    notes: Items<Note>,
) -> Result<Part, AllocError>
    ensures { IfOk result (λ part. part ≡ part_with procs.now made notes) }
{
    let notes = notes_in(alloc, procs, notes)?;
    let GroupSummaries { formulas, flows } = made;
    Ok(Part {
        formulas,
        flows,
        notes,
    })
}

/// The summaries and the flows of a group whose callees outside are known, and the notes of finding
/// these, in which a procedure is told by its place in the group. The log gains the answers, and no
/// notes.
pub fn summaries_apart<O: Oracle>(
    alloc: Global,
    program: &Program,
    planned: &Planned,
    known: &[Option<Formula>],
    oracle: &mut O,
    log: &mut Log,
) -> Result<(GroupSummaries, Items<Note>), WorkError>
    requires formed { IsWellFormed program.now }
    requires known { AreKnown program.now known.now }
    requires ready { IsReadyGroup program.now planned.now known.now }
    ensures follows { Asks O.asking oracle log result
        (apart (summaries_by planned.now.kind program.now planned.now.procs known.now)) }
    ensures fits { IfOk result
        (λ made. FitsGroup program.now planned.now.procs made.0.formulas made.0.flows) }
    ensures met { AreMet program.now known.now
        → IfOk result
        (λ made. GroupIsMet program.now planned.now.procs made.0.formulas made.0.flows) }
{
    let others = mem::replace(&mut log.notes, Items::new(alloc));
    let result = summaries_by(alloc, program, planned, known, oracle, log);
    let notes = mem::replace(&mut log.notes, others);
    Ok((result?, notes))
}

#[tactic(auto, using(crate::proofs::GroupKinds::linear_told, crate::proofs::GroupKinds::rounds_told), unfolding(crate::specs::Parts::summaries_by))]
fn summaries_by<O: Oracle>(
    alloc: Global,
    program: &Program,
    planned: &Planned,
    known: &[Option<Formula>],
    oracle: &mut O,
    log: &mut Log,
) -> Result<GroupSummaries, WorkError>
    requires formed { IsWellFormed program.now }
    requires known { AreKnown program.now known.now }
    requires ready { IsReadyGroup program.now planned.now known.now }
    ensures follows { Asks O.asking oracle log result
        (summaries_by planned.now.kind program.now planned.now.procs known.now) }
    ensures fits { IfOk result
        (λ summed. FitsGroup program.now planned.now.procs summed.formulas summed.flows) }
    ensures met { AreMet program.now known.now
        → IfOk result
        (λ summed. GroupIsMet program.now planned.now.procs summed.formulas summed.flows) }
{
    let procs = planned.procs.as_slice();
    match planned.kind {
        GroupKind::Plain => plain_part(alloc, program, procs, known, oracle, log),
        GroupKind::Linear => recursive_part(alloc, program, procs, known, true, oracle, log),
        GroupKind::Rounds => recursive_part(alloc, program, procs, known, false, oracle, log),
    }
}

/// Procedures that call none of these.
#[tactic(auto, unfolding(crate::specs::Parts::plain_part))]
fn plain_part<O: Oracle>(
    alloc: Global,
    program: &Program,
    procs: &[u32],
    known: &[Option<Formula>],
    oracle: &mut O,
    log: &mut Log,
) -> Result<GroupSummaries, WorkError>
    requires formed { IsWellFormed program.now }
    requires there { All (λ proc. proc < length program.now.procs) procs.now }
    requires known { AreKnown program.now known.now }
    requires callees { KnowAllCallees program.now procs.now known.now }
    ensures follows { Asks O.asking oracle log result (plain_part program.now procs.now known.now) }
    ensures fits { IfOk result
        (λ summed. FitsGroup program.now procs.now summed.formulas summed.flows) }
    ensures met { AreMet program.now known.now
        → IfOk result (λ summed. GroupIsMet program.now procs.now summed.formulas summed.flows) }
{
    let mut made = GroupSummaries {
        formulas: Items::new(alloc),
        flows: Items::new(alloc),
    };
    for proc in procs {
        made = with_plain(alloc, program, *proc, known, made, oracle, log)?;
    }
    Ok(made)
}

/// The flow of one procedure, and its summary by that.
#[tactic(auto, using(posing::proofs::Following::following), unfolding(crate::specs::Parts::with_plain))]
fn with_plain<O: Oracle>(
    alloc: Global,
    program: &Program,
    proc: u32,
    known: &[Option<Formula>],
    made: GroupSummaries,
    oracle: &mut O,
    log: &mut Log,
) -> Result<GroupSummaries, WorkError>
    requires formed { IsWellFormed program.now }
    requires procedure { proc < length program.now.procs }
    requires known { AreKnown program.now known.now }
    requires callees { (p : Procedure) → IsProcOf program.now proc p
        → KnowsCallees p known.now }
    ensures follows { (p : Procedure) → IsProcOf program.now proc p
        → Asks O.asking oracle log result (with_plain program.now known.now made p) }
    ensures flow { IfOk result (λ next. AddsFlow program.now known.now proc made.flows next.flows) }
    ensures summary { IfOk result
        (λ next. AddsSummary program.now known.now proc made.formulas next.formulas) }
{
    let own = flow(alloc, program, proc, known, oracle, log)?;
    let formula = project(alloc, program, proc, &own, oracle, log)?;
    let GroupSummaries {
        mut formulas,
        mut flows,
    } = made;
    formulas.push(formula)?;
    flows.push(own)?;
    Ok(GroupSummaries { formulas, flows })
}

/// A recursive group: its summaries, and then a flow for each procedure by these.
#[tactic(auto, using(posing::proofs::Following::following), unfolding(crate::specs::Parts::recursive_part))]
fn recursive_part<O: Oracle>(
    alloc: Global,
    program: &Program,
    procs: &[u32],
    known: &[Option<Formula>],
    linear: bool,
    oracle: &mut O,
    log: &mut Log,
) -> Result<GroupSummaries, WorkError>
    requires formed { IsWellFormed program.now }
    requires there { All (λ proc. proc < length program.now.procs) procs.now }
    requires few { length procs.now ≤ length program.now.procs }
    requires known { AreKnown program.now known.now }
    requires callees { KnowsOthers program.now procs.now known.now }
    requires linear { TellsLinear program.now procs.now linear }
    ensures follows { Asks O.asking oracle log result
        (recursive_part program.now procs.now known.now
        (group_closure linear program.now procs.now known.now)) }
    ensures fits { IfOk result
        (λ summed. FitsGroup program.now procs.now summed.formulas summed.flows) }
    ensures met { AreMet program.now known.now
        → IfOk result (λ summed. GroupIsMet program.now procs.now summed.formulas summed.flows) }
{
    let formulas = close(alloc, program, procs, known, linear, oracle, log)?;
    let all = with_table(alloc, procs, formulas.as_slice(), known)?;
    let flows = flows_by(alloc, program, procs, all.as_slice(), oracle, log)?;
    Ok(GroupSummaries { formulas, flows })
}

fn flows_by<O: Oracle>(
    alloc: Global,
    program: &Program,
    procs: &[u32],
    known: &[Option<Formula>],
    oracle: &mut O,
    log: &mut Log,
) -> Result<Items<Flow>, WorkError>
    requires formed { IsWellFormed program.now }
    requires there { All (λ proc. proc < length program.now.procs) procs.now }
    requires known { AreKnown program.now known.now }
    requires callees { KnowAllCallees program.now procs.now known.now }
    ensures follows { Asks O.asking oracle log result
        (each (with_flow program.now known.now) [] (members_of program.now procs.now)) }
    ensures fits { IfOk result (FitFlows program.now procs.now) }
    ensures holds { AreMet program.now known.now → IfOk result (AreFlowsOf program.now procs.now) }
{
    let mut flows = Items::new(alloc);
    for proc in procs {
        flows = with_flow(alloc, program, *proc, known, flows, oracle, log)?;
    }
    Ok(flows)
}

#[tactic(auto, using(posing::proofs::Following::following), unfolding(crate::specs::Parts::with_flow))]
fn with_flow<O: Oracle>(
    alloc: Global,
    program: &Program,
    proc: u32,
    known: &[Option<Formula>],
    made: Items<Flow>,
    oracle: &mut O,
    log: &mut Log,
) -> Result<Items<Flow>, WorkError>
    requires formed { IsWellFormed program.now }
    requires procedure { proc < length program.now.procs }
    requires known { AreKnown program.now known.now }
    requires callees { (p : Procedure) → IsProcOf program.now proc p
        → KnowsCallees p known.now }
    ensures follows { (p : Procedure) → IsProcOf program.now proc p
        → Asks O.asking oracle log result (with_flow program.now known.now made p) }
    ensures added { IfOk result (AddsFlow program.now known.now proc made) }
{
    let own = flow(alloc, program, proc, known, oracle, log)?;
    let mut flows = made;
    flows.push(own)?;
    Ok(flows)
}

/// Notes of a group, where dropped rows are told by the places of their procedures in the program.
fn notes_in(alloc: Global, procs: &[u32], notes: Items<Note>) -> Result<Items<Note>, AllocError>
    ensures { IfOk result (λ made. made ≡ map (note_in procs.now) notes) }
{
    let mut made = Items::new(alloc);
    for note in notes {
        made.push(note_in(procs, note))?;
    }
    Ok(made)
}

fn note_in(procs: &[u32], note: Note) -> Note
    ensures { result ≡ note_in procs.now note }
{
    match note {
        Note::Dropped { proc, row, by } => Note::Dropped {
            proc: proc_at(procs, proc),
            row,
            by,
        },
        other => other,
    }
}

fn proc_at(procs: &[u32], place: u32) -> u32
    ensures { result ≡ slice_index_or procs.now place 0 }
{
    match procs.get(place as usize) {
        Some(proc) => *proc,
        None => 0,
    }
}
