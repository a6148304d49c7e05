ghost use Rattle.std.specs.Prelude.{◌≡◌};
ghost use Rattle.point_rounds.specs.Source.{IsRoundSource};
ghost use Rattle.point_rounds.specs.Table.{IsTable};
ghost use Rattle.point_search.specs.Parts.{part_of};

use crate::asker::Asker;
use crate::counts::SearchLeft;
use crate::tables::{PlacesLeft, table_of};
use flow_graph::{Act, Graph};
use items::Items;
use point_rounds::{PointState, PointTable, RoundSource, StepFrom, steps_by_table};
use posing::{Log, WorkError};
use std::alloc::{AllocError, Global};

/// The steps from the points of a procedure.
#[derive(Drop)]
pub(crate) struct OwnSteps {
    proc: u32,
    pub(crate) made: Items<StepFrom>,
    /// Whether they are to be made anew.
    is_stale: bool,
    /// Whether they were made by the last making.
    pub(crate) is_new: bool,
}

/// No steps of so many procedures, all to be made.
pub(crate) fn no_steps(alloc: Global, procs: u32) -> Result<Vec<OwnSteps>, AllocError> {
    let mut all = Vec::new(alloc);
    for proc in 0..procs {
        all.push(OwnSteps {
            proc,
            made: Items::new(alloc),
            is_stale: true,
            is_new: false,
        })?;
    }
    Ok(all)
}

/// Makes all steps, by what is left at exits, and tells whether there was room for what this asks.
pub(crate) fn make_all(
    alloc: Global,
    source: RoundSource,
    left: PlacesLeft,
    steps: &mut [OwnSteps],
    counts: &mut SearchLeft,
) -> Result<bool, AllocError>
    requires { IsRoundSource source }
{
    for own in steps.iter_mut() {
        own.is_new = true;
    }
    make_new(alloc, source, left, steps, counts)
}

/// Makes stale steps anew: those of procedures that call no other one with stale steps, or all where
/// each calls one.
pub(crate) fn make_next(
    alloc: Global,
    source: RoundSource,
    left: PlacesLeft,
    steps: &mut [OwnSteps],
    counts: &mut SearchLeft,
) -> Result<bool, AllocError>
    requires { IsRoundSource source }
{
    let waits = waiting(alloc, source, steps)?;
    let all_wait = waits
        .iter()
        .zip(steps.iter())
        .all(|(waits, own)| *waits || !own.is_stale);
    for (own, waits) in steps.iter_mut().zip(waits.iter()) {
        own.is_new = own.is_stale && (all_wait || !*waits);
    }
    make_new(alloc, source, left, steps, counts)
}

/// Makes the steps that are to be new.
fn make_new(
    alloc: Global,
    source: RoundSource,
    left: PlacesLeft,
    steps: &mut [OwnSteps],
    counts: &mut SearchLeft,
) -> Result<bool, AllocError>
    requires { IsRoundSource source }
{
    let table = table_of(alloc, source, left)?;
    for own in steps.iter_mut() {
        if own.is_new {
            match steps_from(alloc, source, own.proc, &table, &mut counts.asker)? {
                Some(made) => own.made = made,
                None => return Ok(false),
            }
            own.is_stale = false;
        }
    }
    Ok(true)
}

/// Which procedures call another one with stale steps.
fn waiting(
    alloc: Global,
    source: RoundSource,
    steps: &[OwnSteps],
) -> Result<Vec<bool>, AllocError> {
    let mut all = Vec::new(alloc);
    for own in steps {
        let waits = match source.graphs.get(own.proc as usize) {
            Some(graph) => calls_stale(graph, own.proc, steps),
            None => false,
        };
        all.push(waits)?;
    }
    Ok(all)
}

/// Whether a graph calls a procedure, other than its own, with stale steps.
fn calls_stale(graph: &Graph, own: u32, steps: &[OwnSteps]) -> bool {
    graph.edges.as_slice().iter().any(|edge| match &edge.act {
        Act::Call { proc, .. } => *proc != own && is_stale(steps, *proc),
        _ => false,
    })
}

fn is_stale(steps: &[OwnSteps], proc: u32) -> bool {
    match steps.get(proc as usize) {
        Some(own) => own.is_stale,
        None => false,
    }
}

/// The steps from the points of a procedure; none where there is no room for what this asks.
fn steps_from(
    alloc: Global,
    source: RoundSource,
    proc: u32,
    table: &PointTable,
    asker: &mut Asker,
) -> Result<Option<Items<StepFrom>>, AllocError>
    requires source { IsRoundSource source }
    requires table { IsTable source.program.now table.now }
{
    let from = count_before(source.states, proc);
    let to = count_before(source.states, proc.saturating_add(1));
    let own = RoundSource {
        program: source.program,
        graphs: source.graphs,
        heads: source.heads,
        known: source.known,
        states: part_of(source.states, from, to),
    };
    let mut log = Log::new(alloc);
    match steps_by_table(alloc, own, table, asker, &mut log) {
        Ok(steps) => Ok(Some(steps)),
        Err(WorkError::Refused) => Ok(None),
        Err(WorkError::Memory) => Err(AllocError),
    }
}

/// How many states are of earlier procedures. They stand first.
fn count_before(states: &[PointState], proc: u32) -> usize {
    let mut count: usize = 0;
    for state in states {
        if state.proc < proc {
            count = count.saturating_add(1);
        }
    }
    count
}

/// The states from a place to another; none where that is no part of them.
fn part_of(states: &[PointState], from: usize, to: usize) -> &[PointState]
    ensures { result.now ≡ part_of states.now from to }
{
    if from <= to && to <= states.len() {
        &states[from..to]
    } else {
        &[]
    }
}

/// Marks the steps of procedures that call one at whose exit there are other counts of rows now, and
/// tells whether any are stale.
pub(crate) fn mark_stale(
    source: RoundSource,
    before: &[usize],
    now: &[usize],
    steps: &mut [OwnSteps],
) -> bool {
    let mut any = false;
    for own in steps.iter_mut() {
        own.is_stale |= match source.graphs.get(own.proc as usize) {
            Some(graph) => calls_changed(graph, before, now),
            None => false,
        };
        any |= own.is_stale;
    }
    any
}

/// Whether a graph calls a procedure whose counts differ.
fn calls_changed(graph: &Graph, before: &[usize], now: &[usize]) -> bool {
    graph.edges.as_slice().iter().any(|edge| match &edge.act {
        Act::Call { proc, .. } => before.get(*proc as usize) != now.get(*proc as usize),
        _ => false,
    })
}
