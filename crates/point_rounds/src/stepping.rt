ghost use Rattle.std.specs.Prelude.{◌≡◌, [], ◌++◌, slice_get, IfOk};
ghost use Rattle.std.specs.List.{AllByRecursion};
ghost use Rattle.syntax_tree.specs.declared.program.Proc.{Proc as Procedure};
ghost use Rattle.posing.specs.Follows.{Asks};
ghost use Rattle.posing.specs.Posing.{each};
ghost use Rattle.vocabularies.specs.Procs.{IsProcOf};
ghost use Rattle.point_steps.specs.Claims.{ArePointSteps, StepsCover};
ghost use Rattle.point_rounds.specs.Closed.{AreStepsFrom, CoverTable, CoversState, IsPointState};
ghost use Rattle.point_rounds.specs.Parts.{AreMoreSteps};
ghost use Rattle.point_rounds.specs.Rounds.{from_point, steps_by_table, steps_in, with_state};
ghost use Rattle.point_rounds.specs.Source.{IsRoundSource};
ghost use Rattle.point_rounds.specs.Table.{IsTable};

use crate::round::{PointState, StepFrom};
use crate::source::{RoundSource, graph_at, heads_at};
use crate::table::PointTable;
use farkas_check::Oracle;
use items::Items;
use point_rows::formulas_with_exits;
use point_steps::{PointStep, StepSource, steps};
use point_ways::{KnownGraph, way_cells};
use posing::{Log, WorkError};
use std::alloc::{AllocError, Global};

/// The steps from all points of states, in their order, where the known formulas are read with the
/// rows of the table at exits. What is lost is noted before the questions of a point.
///
/// # Errors
///
/// A question that the oracle refused, or want of memory.
pub fn steps_by_table<O: Oracle>(
    alloc: Global,
    source: RoundSource,
    table: &PointTable,
    oracle: &mut O,
    log: &mut Log,
) -> Result<Items<StepFrom>, WorkError>
    requires source { IsRoundSource source }
    requires table { IsTable source.program.now table.now }
    ensures follows { Asks O.asking oracle log result
        (steps_by_table source.entry.program.now source.entry.known.now source.entry.states.now
        table.now) }
    ensures fits { IfOk result (AreStepsFrom source.entry.program.now) }
    ensures covers { IfOk result
        (λ steps. CoverTable source.entry.program.now source.entry.known.now
        source.entry.states.now steps table.now) }
{
    let known = formulas_with_exits(alloc, source.known, table.exits.as_slice())?;
    let source = RoundSource {
        program: source.program,
        graphs: source.graphs,
        heads: source.heads,
        known: known.as_slice(),
        states: source.states,
    };
    steps_by_known(alloc, source, oracle, log)
}

/// The steps from all points of states by the known formulas.
#[tactic(auto, using(posing::proofs::Following::following))]
fn steps_by_known<O: Oracle>(
    alloc: Global,
    source: RoundSource,
    oracle: &mut O,
    log: &mut Log,
) -> Result<Items<StepFrom>, WorkError>
    requires { IsRoundSource source }
    ensures follows { Asks O.asking oracle log result
        (each (with_state source.entry.program.now source.entry.known.now) []
        source.entry.states.now) }
    ensures fits { IfOk result (AreStepsFrom source.entry.program.now) }
    ensures covers { IfOk result
        (λ steps. AllByRecursion
        (CoversState source.entry.program.now source.entry.known.now steps)
        source.entry.states.now) }
{
    let states = source.states;
    let mut made = Items::new(alloc);
    for state in states {
        made = with_state(alloc, source, made, state, oracle, log)?;
    }
    Ok(made)
}

/// The steps, and behind them those from the point of a state.
#[tactic(auto, using(posing::proofs::Following::following), unfolding(crate::specs::Rounds::with_state))]
fn with_state<O: Oracle>(
    alloc: Global,
    source: RoundSource,
    made: Items<StepFrom>,
    state: &PointState,
    oracle: &mut O,
    log: &mut Log,
) -> Result<Items<StepFrom>, WorkError>
    requires source { IsRoundSource source }
    requires state { IsPointState source.program.now state.now }
    ensures follows { Asks O.asking oracle log result
        (with_state source.entry.program.now source.entry.known.now made state.now) }
    ensures more { IfOk result
        (AreMoreSteps source.entry.program.now source.entry.known.now state.now made) }
{
    let steps = steps_of(alloc, source, state, oracle, log)?;
    let all = with_steps(made, state, steps)?;
    Ok(all)
}

/// The steps from the point of a state.
#[tactic(auto, using(posing::proofs::Following::following))]
fn steps_of<O: Oracle>(
    alloc: Global,
    source: RoundSource,
    state: &PointState,
    oracle: &mut O,
    log: &mut Log,
) -> Result<Items<PointStep>, WorkError>
    requires source { IsRoundSource source }
    requires state { IsPointState source.program.now state.now }
    ensures follows { Asks O.asking oracle log result
        (steps_in source.entry.program.now source.entry.known.now state.now
        (slice_get source.entry.program.now.procs state.now.proc)) }
    ensures fits { (p : Procedure) → IsProcOf source.entry.program.now state.now.proc p
        → IfOk result (ArePointSteps source.entry.program.now p) }
    ensures covers { (p : Procedure) → IsProcOf source.entry.program.now state.now.proc p
        → IfOk result
        (StepsCover source.entry.program.now state.now.proc p source.entry.known.now
        state.now.node state.now.formula) }
{
    let graph = graph_at(source, state.proc);
    let own = KnownGraph {
        program: source.program,
        proc: state.proc,
        graph,
        known: source.known,
    };
    let cells = way_cells(alloc, own, state.node, oracle, log)?;
    let point = StepSource {
        program: source.program,
        proc: state.proc,
        graph,
        heads: heads_at(source, state.proc),
        node: state.node,
        cells: cells.as_slice(),
    };
    steps(alloc, point, &state.formula, oracle, log)
}

/// The steps, and behind them more from the point of a state.
fn with_steps(
    made: Items<StepFrom>,
    state: &PointState,
    steps: Items<PointStep>,
) -> Result<Items<StepFrom>, AllocError>
    ensures { IfOk result (λ all. all ≡ made ++ from_point state.now steps) }
{
    let mut all = made;
    for step in steps {
        all.push(step_from(state, step))?;
    }
    Ok(all)
}

fn step_from(state: &PointState, step: PointStep) -> StepFrom
    ensures { result ≡ record {
      proc = state.now.proc;
      node = state.now.node;
      step = step;
    } }
{
    StepFrom {
        proc: state.proc,
        node: state.node,
        step,
    }
}
