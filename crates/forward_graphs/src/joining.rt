ghost use Rattle.std.specs.Prelude.{◌≡◌, ◌<◌, ◌∷◌, ◌++◌, [], true, length, IfOk, option_to_list};
ghost use Rattle.std.specs.List.{AllByRecursion};
ghost use Rattle.posing.specs.Follows.{Asks};
ghost use Rattle.posing.specs.Posing.{each};
ghost use Rattle.forward_graphs.specs.Evaluation.{all_steps, either_formula, have_same_ends, joining_after, joining_behind, joined_steps, joining_of, no_steps, with_joined};
ghost use Rattle.checked_tree.specs.Graph.{vocabulary_at};
ghost use Rattle.forward_graphs.specs.Graph.{graph_in};
ghost use Rattle.forward_graphs.specs.UnderWay.{AreSteps, IsJoinable, IsStep};

use crate::fitting::{Ends, either};
use crate::graph::{ForwardGraph, vocabulary_at};
use crate::order::in_order;
use crate::step::{Step, step_at};
use farkas_check::Oracle;
use items::Items;
use polyhedra::{Log, WorkError};
use std::alloc::{AllocError, Global};
use transition_formula::Formula;

/// Steps of different ends, the last of which others may still be joined to.
#[derive(Debug, Drop)]
pub struct Joining {
    /// The steps that are done.
    pub done: Items<Step>,
    /// The last one, once there is one.
    pub last: Option<Step>,
}

/// The steps in order, those of the same ends joined.
#[tactic(auto, using(posing::proofs::Following::following), unfolding(crate::specs::Evaluation::joined_steps))]
pub(crate) fn joined_steps<O: Oracle>(
    alloc: Global,
    graph: ForwardGraph,
    steps: &[Step],
    oracle: &mut O,
    log: &mut Log,
) -> Result<Items<Step>, WorkError>
    requires { AreSteps (graph_in graph) steps.now }
    ensures { Asks O.asking oracle log result (joined_steps (graph_in graph.entry) steps.now) }
{
    let order = in_order(alloc, graph.nodes.len(), steps)?;
    let joining = all_joined(alloc, graph, steps, order.as_slice(), oracle, log)?;
    Ok(all_steps(joining)?)
}

fn all_steps(joining: Joining) -> Result<Items<Step>, AllocError>
    ensures { IfOk result (λ steps. steps ≡ all_steps joining) }
{
    let Joining { done, last } = joining;
    let mut steps = done;
    if let Some(step) = last {
        steps.push(step)?;
    }
    Ok(steps)
}

/// The steps of these numbers, those of the same ends that follow one another joined.
#[tactic(auto, using(posing::proofs::Following::stops))]
fn all_joined<O: Oracle>(
    alloc: Global,
    graph: ForwardGraph,
    steps: &[Step],
    order: &[usize],
    oracle: &mut O,
    log: &mut Log,
) -> Result<Joining, WorkError>
    requires steps { AreSteps (graph_in graph) steps.now }
    requires order { AllByRecursion (λ number. number < length steps.now) order.now }
    ensures { Asks O.asking oracle log result
        (each (with_joined (graph_in graph.entry) steps.now) no_steps order.now) }
{
    let mut joining = no_steps(alloc);
    for number in order {
        joining = with_joined(alloc, graph, steps, joining, *number, oracle, log)?;
    }
    Ok(joining)
}

fn no_steps(alloc: Global) -> Joining
    ensures { result ≡ no_steps }
{
    Joining {
        done: Items::new(alloc),
        last: None,
    }
}

/// The steps with that of one number more: joined to the last one if both have the same ends, else
/// behind it.
#[tactic(auto, using(posing::proofs::Following::stops))]
fn with_joined<O: Oracle>(
    alloc: Global,
    graph: ForwardGraph,
    steps: &[Step],
    joining: Joining,
    number: usize,
    oracle: &mut O,
    log: &mut Log,
) -> Result<Joining, WorkError>
    requires { IsJoinable (graph_in graph) steps.now joining number }
    ensures { Asks O.asking oracle log result
        (with_joined (graph_in graph.entry) steps.now joining number) }
{
    let Joining { done, last } = joining;
    joining_after(
        alloc,
        graph,
        done,
        last,
        step_at(steps, number),
        oracle,
        log,
    )
}

/// The steps with one more, where there may be no last one.
#[tactic(auto, using(posing::proofs::Following::stops))]
fn joining_after<O: Oracle>(
    alloc: Global,
    graph: ForwardGraph,
    done: Items<Step>,
    last: Option<Step>,
    step: &Step,
    oracle: &mut O,
    log: &mut Log,
) -> Result<Joining, WorkError>
    requires known { AreSteps (graph_in graph) (done ++ option_to_list last) }
    requires step { IsStep (graph_in graph) step.now }
    ensures { Asks O.asking oracle log result
        (joining_after (graph_in graph.entry) done last step.now) }
{
    match last {
        None => Ok(joining_of(done, step)?),
        Some(last) => joining_behind(alloc, graph, done, last, step, oracle, log),
    }
}

fn joining_of(done: Items<Step>, last: &Step) -> Result<Joining, AllocError>
    ensures { IfOk result (λ joining. joining ≡ joining_of done last.now) }
{
    let formula = last.formula.clone()?;
    let last = Step {
        from: last.from,
        to: last.to,
        formula,
    };
    Ok(Joining {
        done,
        last: Some(last),
    })
}

#[tactic(auto, using(posing::proofs::Following::stops))]
fn joining_behind<O: Oracle>(
    alloc: Global,
    graph: ForwardGraph,
    done: Items<Step>,
    last: Step,
    step: &Step,
    oracle: &mut O,
    log: &mut Log,
) -> Result<Joining, WorkError>
    requires last { IsStep (graph_in graph) last }
    requires step { IsStep (graph_in graph) step.now }
    ensures { Asks O.asking oracle log result
        (joining_behind (graph_in graph.entry) done last step.now (have_same_ends last step.now)) }
{
    if have_same_ends(&last, step) {
        let formula = joined_formula(alloc, graph, &last, step, oracle, log)?;
        return Ok(with_formula(done, last, formula));
    }
    Ok(behind(done, last, step)?)
}

/// The last step with another formula.
fn with_formula(done: Items<Step>, last: Step, formula: Formula) -> Joining
    ensures { result
        ≡ joining_of done record { from = last.from; to = last.to; formula = formula } }
{
    let Step {
        from,
        to,
        formula: _former,
    } = last;
    Joining {
        done,
        last: Some(Step { from, to, formula }),
    }
}

fn have_same_ends(one: &Step, other: &Step) -> bool
    ensures { result ≡ have_same_ends one.now other.now }
{
    one.from == other.from && one.to == other.to
}

/// The last step done, and one more behind it.
fn behind(done: Items<Step>, last: Step, step: &Step) -> Result<Joining, AllocError>
    ensures { IfOk result (λ joining. joining ≡ joining_of (done ++ last ∷ []) step.now) }
{
    let mut done = done;
    done.push(last)?;
    joining_of(done, step)
}

/// Either of two steps between the same nodes.
fn joined_formula<O: Oracle>(
    alloc: Global,
    graph: ForwardGraph,
    last: &Step,
    step: &Step,
    oracle: &mut O,
    log: &mut Log,
) -> Result<Formula, WorkError>
    requires last { IsStep (graph_in graph) last.now }
    requires step { IsStep (graph_in graph) step.now }
    requires same { have_same_ends last.now step.now ≡ true }
    ensures { Asks O.asking oracle log result
        (either_formula last.now.formula step.now.formula
        (vocabulary_at (graph_in graph.entry) last.now.from)
        (vocabulary_at (graph_in graph.entry) last.now.to)) }
{
    let from = vocabulary_at(graph, last.from as usize);
    let to = vocabulary_at(graph, last.to as usize);
    let ends = Ends { from, to };
    either(alloc, &last.formula, &step.formula, ends, oracle, log)
}
