ghost use Rattle.std.specs.Prelude.{◌≡◌, ◌<◌, ◌==◌, ◌∷◌, ◌++◌, [], length, IfOk};
ghost use Rattle.posing.specs.Follows.{Asks};
ghost use Rattle.forward_graphs.specs.Evaluation.{also_found, arrival_formula, cell_at, cell_of, walk_formula, with_arrival, with_node, with_walk};
ghost use Rattle.forward_graphs.specs.Order.{arrivals};
ghost use Rattle.forward_graphs.specs.UnderWay.{graph_of, AreUnderWay, IsArrival, IsFound, IsFurther, IsNext};

use crate::fitting::{Ends, either, sequence};
use crate::graph::{ForwardGraph, vocabulary_at};
use crate::step::{Step, step_at};
use farkas_check::Oracle;
use items::Items;
use path_expr::Cell;
use polyhedra::{Log, WorkError};
use std::alloc::{AllocError, Global};
use transition_formula::Formula;

/// The walks of a graph from a source, by its steps.
#[derive(Clone, Copy)]
pub(crate) struct Walks<'a> {
    pub graph: ForwardGraph<'a>,
    pub source: usize,
    pub steps: &'a [Step],
}

/// The cells of the nodes before, and behind them that of one node more, to which the steps of
/// these numbers lead.
#[tactic(auto, using(posing::proofs::Following::stops))]
pub(crate) fn with_node<O: Oracle>(
    alloc: Global,
    walks: Walks,
    cells: Items<Cell<Formula>>,
    node: usize,
    numbers: &[usize],
    oracle: &mut O,
    log: &mut Log,
) -> Result<Items<Cell<Formula>>, WorkError>
    requires before { AreUnderWay (graph_of walks) walks.source walks.steps.now cells node }
    requires numbers { numbers.now ≡ arrivals walks.steps.now node }
    ensures { Asks O.asking oracle log result
        (with_node (graph_of walks.entry) walks.entry.source walks.entry.steps.now cells node) }
{
    if is_source(walks, node) {
        return Ok(with_cell(cells, Cell::One)?);
    }
    let found = arrival_formula(alloc, walks, cells.as_slice(), node, numbers, oracle, log)?;
    Ok(with_cell(cells, cell_of(found))?)
}

fn is_source(walks: Walks, node: usize) -> bool
    ensures { result ≡ (node == walks.entry.source) }
{
    node == walks.source
}

fn with_cell(
    cells: Items<Cell<Formula>>,
    cell: Cell<Formula>,
) -> Result<Items<Cell<Formula>>, AllocError>
    ensures { IfOk result (λ all. all ≡ cells ++ cell ∷ []) }
{
    let mut all = cells;
    all.push(cell)?;
    Ok(all)
}

fn cell_of(found: Option<Formula>) -> Cell<Formula>
    ensures { result ≡ cell_of found }
{
    match found {
        None => Cell::Zero,
        Some(formula) => Cell::Item(formula),
    }
}

/// The formula of the walks to a node, whose last steps have these numbers.
#[tactic(auto, using(posing::proofs::Following::stops))]
fn arrival_formula<O: Oracle>(
    alloc: Global,
    walks: Walks,
    cells: &[Cell<Formula>],
    node: usize,
    numbers: &[usize],
    oracle: &mut O,
    log: &mut Log,
) -> Result<Option<Formula>, WorkError>
    requires before { AreUnderWay (graph_of walks) walks.source walks.steps.now cells.now node }
    requires numbers { numbers.now ≡ arrivals walks.steps.now node }
    ensures { Asks O.asking oracle log result
        (arrival_formula (graph_of walks.entry) walks.entry.source walks.entry.steps.now cells.now
        node) }
{
    let mut found = None;
    for number in numbers {
        let arrival = arrival_of(walks, cells, node, *number);
        found = with_walk(alloc, arrival, found, oracle, log)?;
    }
    Ok(found)
}

/// A step behind the walks to the node that it starts at.
#[derive(Clone, Copy)]
struct Arrival<'a> {
    /// What stands at the node that the step starts at.
    cell: &'a Cell<Formula>,
    step: &'a Formula,
    /// The vocabularies of the source and of the node that the step leads to.
    ends: Ends<'a>,
}

fn arrival_of<'a>(
    walks: Walks<'a>,
    cells: &'a [Cell<Formula>],
    node: usize,
    number: usize,
) -> Arrival<'a>
    requires { IsNext (graph_of walks) walks.source walks.steps.now cells.now node number }
    ensures { IsArrival (graph_of walks.entry) walks.entry.source walks.entry.steps.now cells.now
        node number result }
{
    let step = step_at(walks.steps, number);
    let cell = cell_at(cells, step.from as usize);
    let from = vocabulary_at(walks.graph, walks.source);
    let to = vocabulary_at(walks.graph, node);
    Arrival {
        cell,
        step: &step.formula,
        ends: Ends { from, to },
    }
}

fn cell_at(cells: &[Cell<Formula>], node: usize) -> &Cell<Formula>
    requires { node < length cells.now }
    ensures { result.now ≡ cell_at cells.now node }
{
    &cells[node]
}

/// The formula found so far, and that of the walks that arrive by a step.
#[tactic(auto, using(posing::proofs::Following::following), unfolding(crate::specs::Evaluation::with_walk))]
fn with_walk<O: Oracle>(
    alloc: Global,
    arrival: Arrival,
    found: Option<Formula>,
    oracle: &mut O,
    log: &mut Log,
) -> Result<Option<Formula>, WorkError>
    requires further { IsFurther arrival.ends.from.now arrival.ends.to.now arrival.cell.now
        arrival.step.now }
    requires found { IsFound arrival.ends.from.now arrival.ends.to.now found }
    ensures { Asks O.asking oracle log result
        (with_walk arrival.entry.cell.now arrival.entry.step.now arrival.entry.ends.from.now
        arrival.entry.ends.to.now found) }
{
    let more = walk_formula(alloc, arrival, oracle, log)?;
    also_found(alloc, arrival.ends, found, more, oracle, log)
}

/// The formula of the walks that arrive by a step, if there are any.
#[tactic(auto, using(posing::proofs::Following::following))]
fn walk_formula<O: Oracle>(
    alloc: Global,
    arrival: Arrival,
    oracle: &mut O,
    log: &mut Log,
) -> Result<Option<Formula>, WorkError>
    requires { IsFurther arrival.ends.from.now arrival.ends.to.now arrival.cell.now
        arrival.step.now }
    ensures { Asks O.asking oracle log result
        (walk_formula arrival.entry.cell.now arrival.entry.step.now arrival.entry.ends.from.now
        arrival.entry.ends.to.now) }
{
    match arrival.cell {
        Cell::Zero => Ok(None),
        Cell::One => Ok(Some(arrival.step.clone()?)),
        Cell::Item(before) => {
            let formula = sequence(alloc, before, arrival.step, arrival.ends, oracle, log)?;
            Ok(Some(formula))
        }
    }
}

/// The formula found so far, and that of further walks.
#[tactic(auto, using(posing::proofs::Following::following))]
fn also_found<O: Oracle>(
    alloc: Global,
    ends: Ends,
    found: Option<Formula>,
    more: Option<Formula>,
    oracle: &mut O,
    log: &mut Log,
) -> Result<Option<Formula>, WorkError>
    requires found { IsFound ends.from.now ends.to.now found }
    requires more { IsFound ends.from.now ends.to.now more }
    ensures { Asks O.asking oracle log result
        (also_found found more ends.entry.from.now ends.entry.to.now) }
{
    match (found, more) {
        (None, more) => Ok(more),
        (found, None) => Ok(found),
        (Some(left), Some(right)) => {
            let formula = either(alloc, &left, &right, ends, oracle, log)?;
            Ok(Some(formula))
        }
    }
}
