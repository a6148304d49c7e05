ghost use Rattle.std.specs.Prelude.{◌≡◌, ◌∷◌, ◌++◌, [], IfOk};
ghost use Rattle.syntax_tree.specs.WellFormed.{IsWellFormed};
ghost use Rattle.posing.specs.Follows.{Asks};
ghost use Rattle.context.specs.Claims.{AreEntries, AreFlows, EntriesHold, FlowsHold};
ghost use Rattle.point_rounds.specs.Closed.{ArePointStates, StatesHold};
ghost use Rattle.point_states.specs.AllStates.{state_in, states_of_points, with_point, with_points};
ghost use Rattle.point_states.specs.Additions.{AddsStates, ArePointsOf, TellsStop};

use farkas_check::Oracle;
use items::Items;
use point_rounds::PointState;
use point_steps::state;
use posing::{Log, WorkError};
use proc_summary::{Flow, NodeFormula};
use std::alloc::{AllocError, Global};
use syntax_tree::Program;
use transition_formula::Formula;

/// A procedure of a program by its number, with its entry: a formula of the globals and parameters
/// with which it begins, or none where it is never called.
#[derive(Clone, Copy)]
struct PointOwner<'a> {
    program: &'a Program,
    proc: u32,
    begun: &'a Option<Formula>,
}

/// The states of all points of a program, procedure by procedure in the order of the text, and in
/// each in the order of its points: the entry, and then the heads of its loops. A point whose state
/// has no case is left out, since no execution comes to it. Each state goes from no columns to
/// those of the procedure at the point, and behind them those of its entry as they were at the
/// entry, by cases of at most 88 auxiliaries each.
///
/// Where the entries and the flows hold of activations, and as long as the answers are true, the
/// state of a point holds of each activation that comes to it in an execution from `main`, whether
/// or not those below it on the stack return.
///
/// # Errors
///
/// A question that the oracle refused, or want of memory.
pub fn point_states<O: Oracle>(
    alloc: Global,
    program: &Program,
    entries: &[Option<Formula>],
    flows: &[Flow],
    oracle: &mut O,
    log: &mut Log,
) -> Result<Items<PointState>, WorkError>
    requires formed { IsWellFormed program.now }
    requires entries { AreEntries program.now entries.now }
    requires flows { AreFlows program.now flows.now }
    ensures follows { Asks O.asking oracle log result
        (states_of_points program.now entries.now flows.now) }
    ensures fits { IfOk result (ArePointStates program.now) }
    ensures holds { EntriesHold program.now entries.now → FlowsHold program.now flows.now
        → IfOk result (StatesHold program.now) }
{
    let mut made = Items::new(alloc);
    for number in 0..program.procs.len() {
        let owner = PointOwner {
            program,
            proc: number as u32,
            begun: &entries[number],
        };
        let points = flows[number].points.as_slice();
        made = with_points(alloc, owner, made, points, oracle, log)?;
    }
    Ok(made)
}

/// The states, and behind them those of points of one procedure.
fn with_points<O: Oracle>(
    alloc: Global,
    owner: PointOwner<'_>,
    made: Items<PointState>,
    points: &[NodeFormula],
    oracle: &mut O,
    log: &mut Log,
) -> Result<Items<PointState>, WorkError>
    requires { ArePointsOf owner.program.now owner.proc owner.begun.now points.now }
    ensures follows { Asks O.asking oracle log result
        (with_points owner.entry.program.now owner.entry.proc owner.entry.begun.now made
        points.now) }
    ensures added { IfOk result
        (AddsStates owner.entry.program.now
        (TellsStop owner.entry.program.now owner.entry.proc owner.entry.begun.now) points.now made) }
{
    let mut all = made;
    for stop in points {
        all = with_point(alloc, owner, all, stop, oracle, log)?;
    }
    Ok(all)
}

/// The states, and behind them that of one point, if it has a case.
#[tactic(auto, using(posing::proofs::Following::following), unfolding(crate::specs::AllStates::with_point))]
fn with_point<O: Oracle>(
    alloc: Global,
    owner: PointOwner<'_>,
    made: Items<PointState>,
    stop: &NodeFormula,
    oracle: &mut O,
    log: &mut Log,
) -> Result<Items<PointState>, WorkError>
    requires { ArePointsOf owner.program.now owner.proc owner.begun.now (stop.now ∷ []) }
    ensures follows { Asks O.asking oracle log result
        (with_point owner.entry.program.now owner.entry.proc owner.entry.begun.now made stop.now) }
    ensures added { IfOk result
        (AddsStates owner.entry.program.now
        (TellsStop owner.entry.program.now owner.entry.proc owner.entry.begun.now)
        (stop.now ∷ []) made) }
{
    let program = owner.program;
    let f = state(
        alloc,
        program,
        owner.proc,
        owner.begun,
        &stop.formula,
        oracle,
        log,
    )?;
    let all = with_formula(made, owner.proc, stop.node, f)?;
    Ok(all)
}

/// The states, and behind them one of this formula, if it has a case.
fn with_formula(
    made: Items<PointState>,
    proc: u32,
    node: u32,
    formula: Formula,
) -> Result<Items<PointState>, AllocError>
    ensures { IfOk result (λ all. all ≡ made ++ state_in proc node formula formula.cases) }
{
    let mut all = made;
    if !formula.cases().is_empty() {
        all.push(PointState {
            proc,
            node,
            formula,
        })?;
    }
    Ok(all)
}
