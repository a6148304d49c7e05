ghost use Rattle.std.specs.Prelude.{◌≡◌, ◌<◌, [], get_or, length, map, IfOk};
ghost use Rattle.std.specs.List.{AllByRecursion, range_with_len};
ghost use Rattle.transition_formula.specs.Transition.{Transition};
ghost use Rattle.posing.specs.Follows.{Asks};
ghost use Rattle.posing.specs.Posing.{each};
ghost use Rattle.polyhedra.specs.Laws.{HaveCanonicalRows};
ghost use Rattle.forward_graphs.specs.Evaluation.{cells_by, walk_cells, with_node};
ghost use Rattle.forward_graphs.specs.Graph.{graph_in};
ghost use Rattle.forward_graphs.specs.Law.{AreCanonicalCells, AreFittedCells, CellsHold, IsCanonicalCell, IsForward};
ghost use Rattle.forward_graphs.specs.Order.{arrivals};
ghost use Rattle.forward_graphs.specs.UnderWay.{graph_of, AreSteps};

use crate::arriving::{Walks, with_node};
use crate::graph::ForwardGraph;
use crate::joining::joined_steps;
use crate::leaves::leaf_steps;
use crate::order::{StepEnd, groups, numbers_below};
use farkas_check::Oracle;
use items::Items;
use linear_terms::{Case, see_rows};
use path_expr::Cell;
use polyhedra::{Log, WorkError};
use std::alloc::Global;
use transition_formula::Formula;

/// The formulas of the walks from a source: at each node's place its cell. Each link leads to a
/// later node, and has a formula between the vocabularies of its ends, of at most 63 columns each.
///
/// A cell holds of the first and the last state of every run along a walk from the source to its
/// node, as long as the answers are true. An item goes from the source's columns to its node's, by
/// at most 64 cases of at most 64 rows and 64 auxiliaries.
///
/// First each leaf is settled and fitted, then links of the same ends are joined, then each node
/// takes the walks that arrive at it, by the nodes before it in ascending order. What is lost is
/// noted. An error is a question that the oracle refused, or want of memory.
pub fn walk_cells<O: Oracle>(
    alloc: Global,
    graph: ForwardGraph,
    source: u32,
    oracle: &mut O,
    log: &mut Log,
) -> Result<Items<Cell<Formula>>, WorkError>
    requires { IsForward (graph_in graph) source }
    ensures follows { Asks O.asking oracle log result (walk_cells (graph_in graph.entry) source) }
    ensures holds { IfOk result (CellsHold (graph_in graph.entry) source) }
    ensures fits { IfOk result (AreFittedCells (graph_in graph.entry) source) }
{
    see_leaves(graph.leaves);
    let cells = evaluated_cells(alloc, graph, source, oracle, log)?;
    see_cells(cells.as_slice());
    Ok(cells)
}

/// Each case's rows have their monomials in print order, each once. It goes over the cases and has
/// no part in an answer.
fn see_cases(cases: &[Case])
    ensures { HaveCanonicalRows cases.now }
{
    for case in cases {
        see_rows(case.rows.as_slice());
    }
}

/// So have those of each leaf.
fn see_leaves(leaves: &[Formula])
    ensures { AllByRecursion (λ (f : Transition). HaveCanonicalRows f.cases) leaves.now }
{
    for leaf in leaves {
        see_cases(leaf.cases());
    }
}

/// So have those of each cell.
fn see_cells(cells: &[Cell<Formula>])
    ensures { AreCanonicalCells cells.now }
{
    for cell in cells {
        see_cell(cell);
    }
}

fn see_cell(cell: &Cell<Formula>)
    ensures { IsCanonicalCell cell.now }
{
    if let Cell::Item(formula) = cell {
        see_cases(formula.cases());
    }
}

/// The cells of all nodes.
#[tactic(auto, using(posing::proofs::Following::following), unfolding(crate::specs::Evaluation::walk_cells))]
fn evaluated_cells<O: Oracle>(
    alloc: Global,
    graph: ForwardGraph,
    source: u32,
    oracle: &mut O,
    log: &mut Log,
) -> Result<Items<Cell<Formula>>, WorkError>
    requires { IsForward (graph_in graph) source }
    ensures { Asks O.asking oracle log result (walk_cells (graph_in graph.entry) source) }
{
    let leaves = leaf_steps(alloc, graph, oracle, log)?;
    let joined = joined_steps(alloc, graph, leaves.as_slice(), oracle, log)?;
    let source = source as usize;
    let steps = joined.as_slice();
    let walks = Walks {
        graph,
        source,
        steps,
    };
    cells_by(alloc, walks, oracle, log)
}

/// The cells of all nodes, by the steps between them.
#[tactic(auto, using(posing::proofs::Following::stops), unfolding(crate::specs::Evaluation::cells_by))]
fn cells_by<O: Oracle>(
    alloc: Global,
    walks: Walks,
    oracle: &mut O,
    log: &mut Log,
) -> Result<Items<Cell<Formula>>, WorkError>
    requires steps { AreSteps (graph_of walks) walks.steps.now }
    requires source { walks.source < length walks.graph.nodes.now }
    ensures { Asks O.asking oracle log result
        (cells_by (graph_of walks.entry) walks.entry.source walks.entry.steps.now) }
{
    let count = walks.graph.nodes.len();
    let numbers = numbers_below(alloc, walks.steps.len())?;
    let by_target = groups(
        alloc,
        count,
        walks.steps,
        StepEnd::Target,
        numbers.as_slice(),
    )?;
    let nodes = numbers_below(alloc, count)?;
    cells_of(
        alloc,
        walks,
        nodes.as_slice(),
        by_target.as_slice(),
        oracle,
        log,
    )
}

/// The cells of all nodes, by the numbers of the steps that lead to each.
#[tactic(auto, using(posing::proofs::Following::stops))]
fn cells_of<O: Oracle>(
    alloc: Global,
    walks: Walks,
    nodes: &[usize],
    by_target: &[Items<usize>],
    oracle: &mut O,
    log: &mut Log,
) -> Result<Items<Cell<Formula>>, WorkError>
    requires steps { AreSteps (graph_of walks) walks.steps.now }
    requires source { walks.source < length walks.graph.nodes.now }
    requires nodes { nodes.now ≡ range_with_len 0 (length walks.graph.nodes.now) }
    requires by_target { by_target.now
        ≡ map (arrivals walks.steps.now) (range_with_len 0 (length walks.graph.nodes.now)) }
    ensures { Asks O.asking oracle log result
        (each (with_node (graph_of walks.entry) walks.entry.source walks.entry.steps.now) []
        nodes.now) }
{
    let mut cells = Items::new(alloc);
    for node in nodes {
        let numbers = numbers_to(by_target, *node);
        cells = with_node(alloc, walks, cells, *node, numbers, oracle, log)?;
    }
    Ok(cells)
}

fn numbers_to(by_target: &[Items<usize>], node: usize) -> &[usize]
    requires { node < length by_target.now }
    ensures { result.now ≡ get_or by_target.now node [] }
{
    by_target[node].as_slice()
}
