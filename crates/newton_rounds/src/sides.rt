ghost use Rattle.std.specs.Prelude.{◌≡◌, ◌<◌, ◌^◌, All, length, map, slice_index, IfOk};
ghost use Rattle.std.specs.List.{AllByRecursion};
ghost use Rattle.syntax_tree.specs.WellFormed.{IsWellFormed, width_of};
ghost use Rattle.syntax_tree.specs.declared.program.Proc.{Proc as Procedure};
ghost use Rattle.posing.specs.Follows.{Asks};
ghost use Rattle.posing.specs.Posing.{each};
ghost use Rattle.vocabularies.specs.Procs.{IsProcOf};
ghost use Rattle.proc_summary.specs.Subject.{own_graph};
ghost use Rattle.newton_rounds.specs.Closure.{ends_of_members, sides_from, sides_of, with_member, with_sides};
ghost use Rattle.newton_rounds.specs.Groups.{IsReadyCaller, IsReadyGroup, subject_in};
ghost use Rattle.newton_rounds.specs.Members.{calls_from, calls_of, members_of};
ghost use Rattle.newton_rounds.specs.Shapes.{AddSides, FitCalls, FitSides, HasNodes, IsCallIn, plain_call};

use crate::calls::{GroupCall, Sides, calls_of};
use crate::group::GroupInRounds;
use farkas_check::Oracle;
use flow_graph::graph;
use items::Items;
use path_expr::Cell;
use posing::{Log, WorkError};
use proc_summary::{cells, formula_at};
use std::alloc::{AllocError, Global};
use syntax_tree::Program;
use transition_formula::Formula;

/// All calls of the group by its procedures.
pub(crate) fn calls_from(
    alloc: Global,
    program: &Program,
    procs: &[u32],
) -> Result<Items<GroupCall>, AllocError>
    requires formed { IsWellFormed program.now }
    requires there { All (λ proc. proc < length program.now.procs) procs.now }
    requires few { length procs.now < 2 ^ 32 }
    ensures made { IfOk result
        (λ calls. map plain_call calls
        ≡ calls_from procs.now 0 (members_of program.now procs.now)) }
    ensures fit { IfOk result
        (λ calls. AllByRecursion
        (λ call. IsCallIn (ends_of_members program.now procs.now) (plain_call call)) calls) }
{
    let mut calls = Items::new(alloc);
    for (place, proc) in procs.iter().enumerate() {
        let graph = graph(alloc, program, *proc)?;
        calls.append(calls_of(alloc, graph.edges.as_slice(), procs, place as u32)?)?;
    }
    Ok(calls)
}

/// Both sides of all calls of the group by its procedures.
pub(crate) fn sides_of<O: Oracle>(
    alloc: Global,
    group: GroupInRounds<'_>,
    oracle: &mut O,
    log: &mut Log,
) -> Result<Items<Sides>, WorkError>
    requires { IsReadyGroup group }
    ensures follows { Asks O.asking oracle log result
        (sides_of group.entry.program.now group.entry.procs.now group.entry.known.now) }
    ensures fits { IfOk result
        (FitCalls group.entry.members.now
        (calls_from group.entry.procs.now 0
        (members_of group.entry.program.now group.entry.procs.now))) }
{
    let mut made = Items::new(alloc);
    for place in 0..group.procs.len() as u32 {
        made = with_member(alloc, group, made, place, oracle, log)?;
    }
    Ok(made)
}

/// The sides of one procedure's calls behind others.
#[tactic(auto, using(posing::proofs::Following::following), unfolding(crate::specs::Closure::with_member))]
fn with_member<O: Oracle>(
    alloc: Global,
    group: GroupInRounds<'_>,
    made: Items<Sides>,
    place: u32,
    oracle: &mut O,
    log: &mut Log,
) -> Result<Items<Sides>, WorkError>
    requires group { IsReadyGroup group }
    requires place { place < length group.procs.now }
    ensures follows { (p : Procedure)
        → IsProcOf group.entry.program.now (slice_index group.entry.procs.now place) p
        → Asks O.asking oracle log result
        (with_member group.entry.program.now group.entry.procs.now group.entry.known.now made
        (place, p)) }
    ensures fits { (p : Procedure)
        → IsProcOf group.entry.program.now (slice_index group.entry.procs.now place) p
        → IfOk result (AddSides (width_of group.entry.program.now p)
        (length (calls_of group.entry.procs.now place p)) made) }
{
    let proc = group.procs[place as usize];
    let (exit, calls) = member_calls(alloc, group, place)?;
    let starts = cells(alloc, group.program, proc, group.known, 0, oracle, log)?;
    let caller = GroupCaller {
        proc,
        exit,
        starts: starts.as_slice(),
    };
    with_all_sides(alloc, group, caller, made, calls.as_slice(), oracle, log)
}

/// The exit of the procedure at a place, and its calls of the group.
fn member_calls(
    alloc: Global,
    group: GroupInRounds<'_>,
    place: u32,
) -> Result<(u32, Items<GroupCall>), AllocError>
    requires group { IsReadyGroup group }
    requires place { place < length group.procs.now }
    ensures nodes { (p : Procedure)
        → IsProcOf group.entry.program.now (slice_index group.entry.procs.now place) p
        → IfOk result (λ found. HasNodes p found.0 found.1) }
    ensures made { (p : Procedure)
        → IsProcOf group.entry.program.now (slice_index group.entry.procs.now place) p
        → IfOk result (λ found. map plain_call found.1 ≡ calls_of group.entry.procs.now place p) }
{
    let GroupInRounds { program, procs, .. } = group;
    let graph = graph(alloc, program, procs[place as usize])?;
    let calls = calls_of(alloc, graph.edges.as_slice(), procs, place)?;
    Ok((graph.nodes - 1, calls))
}

/// How many columns the states of a procedure have.
pub(crate) fn columns_of(program: &Program, proc: u32) -> u32
    requires formed { IsWellFormed program.now }
    requires procedure { proc < length program.now.procs }
    ensures { (p : Procedure) → IsProcOf program.now proc p
        → result ≡ width_of program.now p }
{
    let p = &program.procs.as_slice()[proc as usize];
    (program.globals.len() + p.columns.len() + 1) as u32
}

/// A procedure of the group whose calls are read: its number, the node of its exit, and what holds
/// at each of its nodes from its entry.
#[derive(Clone, Copy)]
pub(crate) struct GroupCaller<'a> {
    pub(crate) proc: u32,
    pub(crate) exit: u32,
    pub(crate) starts: &'a [Cell<Formula>],
}

/// The sides of several calls behind others.
fn with_all_sides<O: Oracle>(
    alloc: Global,
    group: GroupInRounds<'_>,
    caller: GroupCaller<'_>,
    made: Items<Sides>,
    calls: &[GroupCall],
    oracle: &mut O,
    log: &mut Log,
) -> Result<Items<Sides>, WorkError>
    requires group { IsReadyGroup group }
    requires caller { IsReadyCaller group caller }
    requires nodes { (p : Procedure) → IsProcOf group.program.now caller.proc p
        → All (λ call. call.to < (own_graph p).nodes) calls.now }
    ensures follows { (p : Procedure) → IsProcOf group.entry.program.now caller.entry.proc p
        → Asks O.asking oracle log result
        (each (with_sides (subject_in group.entry p) caller.entry.starts.now) made
        (map plain_call calls.now)) }
    ensures fits { (p : Procedure) → IsProcOf group.entry.program.now caller.entry.proc p
        → IfOk result (AddSides (width_of group.entry.program.now p) (length calls.now) made) }
{
    let mut all = made;
    for call in calls {
        all = with_sides(alloc, group, caller, all, call, oracle, log)?;
    }
    Ok(all)
}

#[tactic(auto, using(posing::proofs::Following::following), unfolding(crate::specs::Closure::with_sides))]
fn with_sides<O: Oracle>(
    alloc: Global,
    group: GroupInRounds<'_>,
    caller: GroupCaller<'_>,
    made: Items<Sides>,
    call: &GroupCall,
    oracle: &mut O,
    log: &mut Log,
) -> Result<Items<Sides>, WorkError>
    requires group { IsReadyGroup group }
    requires caller { IsReadyCaller group caller }
    requires node { (p : Procedure) → IsProcOf group.program.now caller.proc p
        → call.now.to < (own_graph p).nodes }
    ensures follows { (p : Procedure) → IsProcOf group.entry.program.now caller.entry.proc p
        → Asks O.asking oracle log result
        (with_sides (subject_in group.entry p) caller.entry.starts.now made
        (plain_call call.now)) }
    ensures fits { (p : Procedure) → IsProcOf group.entry.program.now caller.entry.proc p
        → IfOk result (AddSides (width_of group.entry.program.now p) 1 made) }
{
    let sides = sides_from(alloc, group, caller, call, oracle, log)?;
    let mut all = made;
    all.push(sides)?;
    Ok(all)
}

/// One evaluation from the end of a call.
#[tactic(auto, using(posing::proofs::Following::following), unfolding(crate::specs::Closure::sides_from))]
fn sides_from<O: Oracle>(
    alloc: Global,
    group: GroupInRounds<'_>,
    caller: GroupCaller<'_>,
    call: &GroupCall,
    oracle: &mut O,
    log: &mut Log,
) -> Result<Sides, WorkError>
    requires group { IsReadyGroup group }
    requires caller { IsReadyCaller group caller }
    requires node { (p : Procedure) → IsProcOf group.program.now caller.proc p
        → call.now.to < (own_graph p).nodes }
    ensures follows { (p : Procedure) → IsProcOf group.entry.program.now caller.entry.proc p
        → Asks O.asking oracle log result
        (sides_from (subject_in group.entry p) caller.entry.starts.now (plain_call call.now)) }
    ensures fits { (p : Procedure) → IsProcOf group.entry.program.now caller.entry.proc p
        → IfOk result (FitSides (width_of group.entry.program.now p)) }
{
    let GroupInRounds { program, known, .. } = group;
    let GroupCaller { proc, exit, starts } = caller;
    let columns = columns_of(program, proc);
    let ends = cells(alloc, program, proc, known, call.to, oracle, log)?;
    let before = formula_at(alloc, columns, starts, call.from)?;
    let after = formula_at(alloc, columns, ends.as_slice(), exit)?;
    Ok(Sides { before, after })
}
