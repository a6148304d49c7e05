ghost use Rattle.std.specs.Prelude.{◌≡◌, ◌∷◌, ◌++◌, [], length, IfOk};
ghost use Rattle.std.specs.List.{range_with_len};
ghost use Rattle.posing.specs.Follows.{Asks};
ghost use Rattle.posing.specs.Posing.{each};
ghost use Rattle.forward_graphs.specs.Evaluation.{leaf_formula, leaf_steps, step_of, with_leaf};
ghost use Rattle.forward_graphs.specs.Graph.{graph_in};
ghost use Rattle.forward_graphs.specs.UnderWay.{AreReadyLinks, IsReadyLink};

use crate::fitting::{Ends, settled_formula_within};
use crate::graph::{ForwardGraph, leaf_at, link_at, vocabulary_at};
use crate::order::numbers_below;
use crate::step::Step;
use farkas_check::Oracle;
use items::Items;
use path_expr::Link;
use polyhedra::{Log, WorkError};
use std::alloc::{AllocError, Global};
use transition_formula::Formula;

/// A step for each link, in their order.
#[tactic(auto, using(posing::proofs::Following::stops))]
pub(crate) fn leaf_steps<O: Oracle>(
    alloc: Global,
    graph: ForwardGraph,
    oracle: &mut O,
    log: &mut Log,
) -> Result<Items<Step>, WorkError>
    requires { AreReadyLinks (graph_in graph) (range_with_len 0 (length graph.links.now)) }
    ensures { Asks O.asking oracle log result (leaf_steps (graph_in graph.entry)) }
{
    let numbers = numbers_below(alloc, graph.links.len())?;
    steps_of(alloc, graph, numbers.as_slice(), oracle, log)
}

/// The steps of the links of these numbers.
#[tactic(auto, using(posing::proofs::Following::stops))]
fn steps_of<O: Oracle>(
    alloc: Global,
    graph: ForwardGraph,
    numbers: &[usize],
    oracle: &mut O,
    log: &mut Log,
) -> Result<Items<Step>, WorkError>
    requires { AreReadyLinks (graph_in graph) numbers.now }
    ensures { Asks O.asking oracle log result
        (each (with_leaf (graph_in graph.entry)) [] numbers.now) }
{
    let mut made = Items::new(alloc);
    for number in numbers {
        made = with_leaf(alloc, graph, made, *number, oracle, log)?;
    }
    Ok(made)
}

/// The steps made, and that of one link more behind them.
#[tactic(auto, using(posing::proofs::Following::following), unfolding(crate::specs::Evaluation::with_leaf))]
fn with_leaf<O: Oracle>(
    alloc: Global,
    graph: ForwardGraph,
    made: Items<Step>,
    number: usize,
    oracle: &mut O,
    log: &mut Log,
) -> Result<Items<Step>, WorkError>
    requires { IsReadyLink (graph_in graph) number }
    ensures { Asks O.asking oracle log result (with_leaf (graph_in graph.entry) made number) }
{
    let formula = leaf_formula(alloc, graph, number, oracle, log)?;
    Ok(with_step(made, link_at(graph, number), formula)?)
}

fn leaf_formula<O: Oracle>(
    alloc: Global,
    graph: ForwardGraph,
    number: usize,
    oracle: &mut O,
    log: &mut Log,
) -> Result<Formula, WorkError>
    requires { IsReadyLink (graph_in graph) number }
    ensures { Asks O.asking oracle log result (leaf_formula (graph_in graph.entry) number) }
{
    let link = link_at(graph, number);
    let from = vocabulary_at(graph, link.from as usize);
    let to = vocabulary_at(graph, link.to as usize);
    settled_formula_within(
        alloc,
        leaf_at(graph, number),
        Ends { from, to },
        oracle,
        log,
    )
}

fn with_step(made: Items<Step>, link: Link, formula: Formula) -> Result<Items<Step>, AllocError>
    ensures { IfOk result (λ steps. steps ≡ made ++ step_of link formula ∷ []) }
{
    let mut steps = made;
    steps.push(Step {
        from: link.from,
        to: link.to,
        formula,
    })?;
    Ok(steps)
}
