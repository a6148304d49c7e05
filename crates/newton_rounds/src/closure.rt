ghost use Rattle.std.specs.Prelude.{◌≡◌, ◌<◌, ◌++◌, [], length, map, IfOk, OnOk};
ghost use Rattle.std.specs.List.{flat_map, range_with_len};
ghost use Rattle.posing.specs.Follows.{Asks};
ghost use Rattle.posing.specs.Logs.{Adds, loss_notes};
ghost use Rattle.posing.specs.Posing.{Noted, each};
ghost use Rattle.checked_tree.specs.Evaluation.{evaluated_cells};
ghost use Rattle.newton_rounds.specs.Closure.{closed_member, closure_of, group_graph, group_leaf, losses_in_group_leaf, sides_of, with_closed};
ghost use Rattle.newton_rounds.specs.Between.{AreBases, AreChainsFrom, AreSummaries, FitTable};
ghost use Rattle.newton_rounds.specs.Groups.{IsReadyGraph, IsReadyGroup, stretches_in};
ghost use Rattle.newton_rounds.specs.Members.{calls_from, members_of, with_table};
ghost use Rattle.newton_rounds.specs.Shapes.{FitCalls};

use crate::calls::{GroupCall, Sides};
use crate::chains::{ChainParts, closure_at};
use crate::ends::PairEnds;
use crate::group::GroupInRounds;
use crate::sides::{calls_from, sides_of};
use crate::stretching::pair_formula;
use crate::tables::with_table;
use checked_tree::evaluate_formulas;
use farkas_check::Oracle;
use items::Items;
use path_expr::{Cell, Link};
use polyhedra::Vocabulary;
use posing::{Log, WorkError};
use std::alloc::{AllocError, Global};
use transition_formula::{Formula, FormulaError, Loss};

/// The graph of a group: its procedures by their ends, the calls between them, and what stands at
/// both sides of each call.
#[derive(Clone, Copy)]
pub(crate) struct GroupGraph<'a> {
    pub(crate) members: &'a [PairEnds],
    pub(crate) calls: &'a [GroupCall],
    pub(crate) sides: &'a [Sides],
}

/// The closure of a table: a formula for each procedure of the group by one more unfolding of each
/// chain of calls, where the group's calls on the way are read by the table.
#[tactic(auto, using(posing::proofs::Following::following), unfolding(crate::specs::Closure::closure_of))]
pub(crate) fn closure_of<O: Oracle>(
    alloc: Global,
    group: GroupInRounds<'_>,
    bases: &[Formula],
    table: &[Formula],
    oracle: &mut O,
    log: &mut Log,
) -> Result<Items<Formula>, WorkError>
    requires group { IsReadyGroup group }
    requires bases { AreBases group.members.now bases.now }
    requires table { FitTable group.program.now group.procs.now table.now }
    ensures follows { Asks O.asking oracle log result
        (closure_of group.entry.program.now group.entry.procs.now group.entry.known.now bases.now
        table.now) }
    ensures fits { IfOk result (AreSummaries group.entry.members.now) }
{
    let calls = calls_from(alloc, group.program, group.procs)?;
    let sides = sides_by(alloc, group, table, oracle, log)?;
    let graph = GroupGraph {
        members: group.members,
        calls: calls.as_slice(),
        sides: sides.as_slice(),
    };
    group_formulas(alloc, graph, bases, oracle, log)
}

/// Both sides of all calls, where the group's calls on the way are read by the table.
#[tactic(auto, using(posing::proofs::Following::following))]
fn sides_by<O: Oracle>(
    alloc: Global,
    group: GroupInRounds<'_>,
    table: &[Formula],
    oracle: &mut O,
    log: &mut Log,
) -> Result<Items<Sides>, WorkError>
    requires group { IsReadyGroup group }
    requires table { FitTable group.program.now group.procs.now table.now }
    ensures follows { Asks O.asking oracle log result
        (sides_of group.entry.program.now group.entry.procs.now
        (with_table group.entry.procs.now table.now group.entry.known.now)) }
    ensures fits { IfOk result
        (FitCalls group.entry.members.now
        (calls_from group.entry.procs.now 0
        (members_of group.entry.program.now group.entry.procs.now))) }
{
    let all = with_table(alloc, group.procs, table, group.known)?;
    let known = all.as_slice();
    sides_of(alloc, GroupInRounds { known, ..group }, oracle, log)
}

/// The formula of each procedure, by the graph of the group's calls.
#[tactic(auto, using(posing::proofs::Following::following))]
fn group_formulas<O: Oracle>(
    alloc: Global,
    graph: GroupGraph<'_>,
    bases: &[Formula],
    oracle: &mut O,
    log: &mut Log,
) -> Result<Items<Formula>, WorkError>
    requires graph { IsReadyGraph graph }
    requires bases { AreBases graph.members.now bases.now }
    ensures { Asks O.asking oracle log result
        (each (with_closed graph.entry.members.now (stretches_in graph.entry) bases.now) []
        (range_with_len 0 (length graph.entry.members.now))) }
{
    let mut made = Items::new(alloc);
    for place in 0..graph.members.len() as u32 {
        made = with_closed(alloc, graph, bases, made, place, oracle, log)?;
    }
    Ok(made)
}

#[tactic(auto, using(posing::proofs::Following::following), unfolding(crate::specs::Closure::with_closed))]
fn with_closed<O: Oracle>(
    alloc: Global,
    graph: GroupGraph<'_>,
    bases: &[Formula],
    made: Items<Formula>,
    place: u32,
    oracle: &mut O,
    log: &mut Log,
) -> Result<Items<Formula>, WorkError>
    requires graph { IsReadyGraph graph }
    requires bases { AreBases graph.members.now bases.now }
    requires there { place < length graph.members.now }
    ensures { Asks O.asking oracle log result
        (with_closed graph.entry.members.now (stretches_in graph.entry) bases.now made place) }
{
    let f = closed_member(alloc, graph, bases, place, oracle, log)?;
    let mut all = made;
    all.push(f)?;
    Ok(all)
}

/// The formula of one procedure.
#[tactic(auto, using(posing::proofs::Following::following), unfolding(crate::specs::Closure::closed_member))]
fn closed_member<O: Oracle>(
    alloc: Global,
    graph: GroupGraph<'_>,
    bases: &[Formula],
    place: u32,
    oracle: &mut O,
    log: &mut Log,
) -> Result<Formula, WorkError>
    requires graph { IsReadyGraph graph }
    requires bases { AreBases graph.members.now bases.now }
    requires there { place < length graph.members.now }
    ensures { Asks O.asking oracle log result
        (closed_member graph.entry.members.now (stretches_in graph.entry) bases.now place) }
{
    let cells = group_cells(alloc, graph, place, oracle, log)?;
    let parts = ChainParts {
        members: graph.members,
        bases,
        place,
        cells: cells.as_slice(),
    };
    closure_at(alloc, parts, oracle, log)
}

/// What stands at each procedure of the group: the chains of calls from the one at a place to it.
#[tactic(auto, using(posing::proofs::Following::following))]
fn group_cells<O: Oracle>(
    alloc: Global,
    graph: GroupGraph<'_>,
    place: u32,
    oracle: &mut O,
    log: &mut Log,
) -> Result<Items<Cell<Formula>>, WorkError>
    requires graph { IsReadyGraph graph }
    requires there { place < length graph.members.now }
    ensures follows { Asks O.asking oracle log result
        (Noted
        (loss_notes
        (flat_map (losses_in_group_leaf graph.entry.members.now) (stretches_in graph.entry)))
        (evaluated_cells (group_graph graph.entry.members.now (stretches_in graph.entry)) place)) }
    ensures lead { IfOk result (AreChainsFrom graph.entry.members.now place) }
{
    let links = links_of(alloc, graph.calls)?;
    let nodes = pairs_of(alloc, graph.members)?;
    let leaves = noted_leaves(alloc, graph, log)?;
    let links = links.as_slice();
    let leaves = leaves.as_slice();
    evaluate_formulas(alloc, links, leaves, nodes.as_slice(), place, oracle, log)
}

fn links_of(alloc: Global, calls: &[GroupCall]) -> Result<Items<Link>, AllocError>
    ensures { IfOk result
        (λ links. links ≡ map (λ call. record { from = call.caller; to = call.callee }) calls.now) }
{
    let mut links = Items::new(alloc);
    for call in calls {
        links.push(Link {
            from: call.caller,
            to: call.callee,
        })?;
    }
    Ok(links)
}

/// The formulas of the calls; losses are noted.
fn noted_leaves(
    alloc: Global,
    graph: GroupGraph<'_>,
    log: &mut Log,
) -> Result<Items<Formula>, FormulaError>
    requires { IsReadyGraph graph }
    ensures noted { Adds
        (loss_notes
        (flat_map (losses_in_group_leaf graph.entry.members.now) (stretches_in graph.entry)))
        log.old log.new result }
    ensures made { IfOk result
        (λ leaves. leaves
        ≡ map (group_leaf graph.entry.members.now) (stretches_in graph.entry)) }
{
    let mut lost = Items::new(alloc);
    let leaves = leaves_of(alloc, graph, &mut lost)?;
    log.add_losses(alloc, lost.as_slice())?;
    Ok(leaves)
}

fn leaves_of(
    alloc: Global,
    graph: GroupGraph<'_>,
    lost: &mut Items<Loss>,
) -> Result<Items<Formula>, FormulaError>
    requires { IsReadyGraph graph }
    ensures made { IfOk result
        (λ leaves. leaves
        ≡ map (group_leaf graph.entry.members.now) (stretches_in graph.entry)) }
    ensures noted { OnOk result
        (lost.new ≡ lost.old
        ++ flat_map (losses_in_group_leaf graph.entry.members.now) (stretches_in graph.entry)) }
{
    let GroupGraph {
        members,
        calls,
        sides,
    } = graph;
    let mut leaves = Items::new(alloc);
    for (i, call) in calls.iter().enumerate() {
        let caller = &members[call.caller as usize];
        let callee = &members[call.callee as usize];
        leaves.push(pair_formula(alloc, caller, callee, call, &sides[i], lost)?)?;
    }
    Ok(leaves)
}

fn pairs_of(alloc: Global, members: &[PairEnds]) -> Result<Items<Vocabulary>, AllocError>
    ensures { IfOk result (λ pairs. pairs ≡ map (λ member. member.pair) members.now) }
{
    let mut pairs = Items::new(alloc);
    for member in members {
        pairs.push(member.pair.clone()?)?;
    }
    Ok(pairs)
}
