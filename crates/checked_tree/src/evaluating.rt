ghost use Rattle.std.specs.Prelude.{[], ◌≡◌, ◌<◌, ◌^◌, length, replicate, IfOk};
ghost use Rattle.posing.specs.Follows.{Asks};
ghost use Rattle.posing.specs.Posing.{each};
ghost use Rattle.checked_tree.specs.Graph.{graph_of};
ghost use Rattle.checked_tree.specs.Evaluation.{evaluated_cells};
ghost use Rattle.checked_tree.specs.Law.{IsEvaluated, AreFittedCells, CellsHold};
ghost use Rattle.checked_tree.specs.ByNumber.{with_number, entries_of, evaluated_cells_by};
ghost use Rattle.checked_tree.specs.Grown.{result_map, trees_of, formulas_of, AreGrown};
ghost use Rattle.checked_tree.specs.Growing.{graph_in, bare_growth, entries_in, tree_cell, AreUnderWay, AreGrownCells, KeepsGrowing};

use crate::checked::Checked;
use crate::growth::Growth;
use crate::key::Key;
use crate::making::{SharedGraph, with_number};
use crate::plan::elimination_plan;
use crate::table::{bare_growths, cells_by, formulas_of, see_leaves, shared_vocabularies};
use farkas_check::Oracle;
use items::Items;
use path_expr::{Cell, Link};
use polyhedra::{Log, Vocabulary, WorkError};
use std::alloc::Global;
use transition_formula::Formula;

/// The formulas of the walks from a source: at each node's place its cell. The links lead between
/// nodes, each link has a formula between its ends' vocabularies, and each node a vocabulary of at
/// most 63 columns.
///
/// A cell holds of the first and the last state of every run along a walk from the source to its
/// node, as long as the answers are true. An item goes from the source's columns to its node's, by
/// at most 16 cases of at most 64 rows and 64 auxiliaries.
///
/// The operations are those of the stated elimination, in its order, each with its questions; what
/// is lost is noted. An error is a question that the oracle refused, or want of memory.
pub fn evaluate_formulas<O: Oracle>(
    alloc: Global,
    links: &[Link],
    leaves: &[Formula],
    nodes: &[Vocabulary],
    source: u32,
    oracle: &mut O,
    log: &mut Log,
) -> Result<Items<Cell<Formula>>, WorkError>
    requires graph { IsEvaluated (graph_of links.now leaves.now nodes.now) source }
    requires few_links { length links.now < 2 ^ 32 }
    requires few_nodes { length nodes.now < 2 ^ 32 }
    ensures follows { Asks O.asking oracle log result
        (evaluated_cells (graph_of links.now leaves.now nodes.now) source) }
    ensures holds { IfOk result (CellsHold (graph_of links.now leaves.now nodes.now) source) }
    ensures fits { IfOk result (AreFittedCells (graph_of links.now leaves.now nodes.now) source) }
{
    let cells = evaluate(alloc, links, leaves, nodes, source, oracle, log)?;
    let formulas = formulas_of(alloc, cells.as_slice())?;
    Ok(formulas)
}

/// The trees of the walks from a source, at each node's place its cell: each step keeps its own
/// notes and answers, and the log is what the steps keep, one after another. A tree that several
/// trees share is kept once. Their formulas are those of `evaluate_formulas`, under the same
/// answers.
pub fn evaluate<O: Oracle>(
    alloc: Global,
    links: &[Link],
    leaves: &[Formula],
    nodes: &[Vocabulary],
    source: u32,
    oracle: &mut O,
    log: &mut Log,
) -> Result<Items<Cell<Checked>>, WorkError>
    requires graph { IsEvaluated (graph_of links.now leaves.now nodes.now) source }
    requires few_links { length links.now < 2 ^ 32 }
    requires few_nodes { length nodes.now < 2 ^ 32 }
    ensures follows { Asks O.asking oracle log
        (result_map formulas_of result)
        (evaluated_cells (graph_of links.now leaves.now nodes.now) source) }
    ensures grown { IfOk result
        (λ cells. AreGrown (graph_of links.now leaves.now nodes.now) source log.old log.new
        (trees_of cells)) }
    ensures holds { IfOk result
        (λ cells. CellsHold (graph_of links.now leaves.now nodes.now) source (formulas_of cells)) }
    ensures fits { IfOk result
        (λ cells. AreFittedCells (graph_of links.now leaves.now nodes.now) source
        (formulas_of cells)) }
{
    see_leaves(leaves);
    let shared = shared_vocabularies(alloc, nodes)?;
    let count = count_of(nodes);
    let (plan, cells) = elimination_plan(alloc, count, links, source)?;
    let nodes = shared.as_slice();
    let graph = SharedGraph {
        links,
        leaves,
        nodes,
    };
    let keys = plan.keys.as_slice();
    let order = plan.order.as_slice();
    let places = cells.as_slice();
    let growths = growths_of(alloc, graph, keys, order, oracle, log)?;
    let made = cells_by(alloc, growths.as_slice(), places)?;
    Ok(made)
}

fn count_of(nodes: &[Vocabulary]) -> u32
    requires { length nodes.now < 2 ^ 32 }
    ensures { result ≡ length nodes.now }
{
    nodes.len() as u32
}

/// The growths of all operations of a plan.
#[tactic(auto, using(posing::proofs::Following::following), unfolding(crate::specs::ByNumber::entries_of))]
fn growths_of<O: Oracle>(
    alloc: Global,
    graph: SharedGraph,
    keys: &[Key],
    order: &[usize],
    oracle: &mut O,
    log: &mut Log,
) -> Result<Items<Growth>, WorkError>
    requires { AreUnderWay (graph_in graph) keys.now log.now
        (replicate (length keys.now) bare_growth) order.now }
    ensures follows { Asks O.asking oracle log
        (result_map entries_in result)
        (entries_of (graph_in graph.entry) keys.now order.now) }
    ensures grown { IfOk result
        (λ all. KeepsGrowing (graph_in graph.entry) keys.now log.old
        (replicate (length keys.now) bare_growth) order.now log.new all []) }
{
    let growths = bare_growths(alloc, keys.len())?;
    with_numbers(alloc, graph, keys, growths, order, oracle, log)
}

/// The growths, and those of more operations.
fn with_numbers<O: Oracle>(
    alloc: Global,
    graph: SharedGraph,
    keys: &[Key],
    growths: Items<Growth>,
    order: &[usize],
    oracle: &mut O,
    log: &mut Log,
) -> Result<Items<Growth>, WorkError>
    requires { AreUnderWay (graph_in graph) keys.now log.now growths order.now }
    ensures follows { Asks O.asking oracle log
        (result_map entries_in result)
        (each (with_number (graph_in graph.entry) keys.now) (entries_in growths) order.now) }
    ensures grown { IfOk result
        (λ all. KeepsGrowing (graph_in graph.entry) keys.now log.old growths order.now log.new all
        []) }
{
    let mut made = growths;
    for number in order {
        made = with_number(alloc, graph, keys, made, *number, oracle, log)?;
    }
    Ok(made)
}
