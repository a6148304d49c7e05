ghost use Rattle.std.specs.Prelude.{◌≡◌, ◌<◌, ◌∷◌, ◌++◌, Some, length, map, IfOk, OnOk};
ghost use Rattle.std.specs.List.{flat_map};
ghost use Rattle.syntax_tree.specs.WellFormed.{IsWellFormed};
ghost use Rattle.point_induction.specs.Heads.{AreInside};
ghost use Rattle.posing.specs.Follows.{Asks};
ghost use Rattle.leaf_cases.specs.Conditions.{AreKnown};
ghost use Rattle.leaf_cases.specs.Summaries.{AreMet};
ghost use Rattle.syntax_tree.specs.declared.program.Proc.{Proc as Procedure};
ghost use Rattle.vocabularies.specs.Procs.{IsProcOf};
ghost use Rattle.proc_summary.specs.Subject.{subject_of};
ghost use Rattle.proc_summary.specs.Flow.{flow_from, formula_at, formula_of, stop_at};
ghost use Rattle.proc_summary.specs.Claims.{FitsFlow, FlowHolds, KnowsCallees};
ghost use Rattle.proc_summary.specs.Parts.{call_stop, check_stop, graph_flow};

use crate::columns::columns_of;
use crate::edges::{OwnGraph, graph_of};
use crate::nodes::cells_of;
use crate::stop::{Flow, NodeFormula};
use farkas_check::Oracle;
use flow_graph::{Act, CheckNode, Edge, Graph};
use items::Items;
use path_expr::Cell;
use point_induction::heads;
use polyhedra::{Log, WorkError};
use std::alloc::Global;
use syntax_tree::Program;
use transition_formula::{Formula, FormulaError, identity};

/// The flow of a procedure whose callees are known.
#[tactic(auto, using(posing::proofs::Following::following), unfolding(crate::specs::Flow::flow_from))]
pub fn flow<O: Oracle>(
    alloc: Global,
    program: &Program,
    proc: u32,
    known: &[Option<Formula>],
    oracle: &mut O,
    log: &mut Log,
) -> Result<Flow, WorkError>
    requires formed { IsWellFormed program.now }
    requires procedure { proc < length program.now.procs }
    requires known { AreKnown program.now known.now }
    requires callees { (p : Procedure) → IsProcOf program.now proc p
        → KnowsCallees p known.now }
    ensures follows { (p : Procedure) → IsProcOf program.now proc p
        → Asks O.asking oracle log result (flow_from (subject_of program.now p known.now)) }
    ensures fits { (p : Procedure) → IsProcOf program.now proc p
        → IfOk result (FitsFlow program.now p) }
    ensures holds { AreMet program.now known.now → IfOk result (FlowHolds program.now proc) }
{
    let graph = graph_of(alloc, program, proc)?;
    let columns = columns_of(program, proc);
    let own = OwnGraph {
        program,
        proc,
        graph: &graph,
        known,
    };
    let cells = cells_of(alloc, own, 0, oracle, log)?;
    let flow = flow_in(alloc, &graph, columns, cells.as_slice())?;
    Ok(flow)
}

/// The formulas at the nodes that count.
fn flow_in(
    alloc: Global,
    graph: &Graph,
    columns: u32,
    cells: &[Cell<Formula>],
) -> Result<Flow, FormulaError>
    requires nodes { 0 < graph.now.nodes }
    requires inside { AreInside graph.now }
    ensures { IfOk result (λ flow. flow ≡ graph_flow columns cells.now graph.now) }
{
    let exit = stop_at(alloc, columns, cells, graph.nodes - 1)?;
    let checks = check_stops(alloc, columns, cells, graph.checks.as_slice())?;
    let calls = call_stops(alloc, columns, cells, graph.edges.as_slice())?;
    let heads = heads(alloc, graph)?;
    let points = point_stops(alloc, columns, cells, heads.as_slice())?;
    Ok(Flow {
        exit,
        checks,
        calls,
        points,
    })
}

fn check_stops(
    alloc: Global,
    columns: u32,
    cells: &[Cell<Formula>],
    checks: &[CheckNode],
) -> Result<Items<NodeFormula>, FormulaError>
    ensures { IfOk result (λ stops. stops ≡ map (check_stop columns cells.now) checks.now) }
{
    let mut stops = Items::new(alloc);
    for check in checks {
        stops.push(stop_at(alloc, columns, cells, check.node)?)?;
    }
    Ok(stops)
}

fn call_stops(
    alloc: Global,
    columns: u32,
    cells: &[Cell<Formula>],
    edges: &[Edge],
) -> Result<Items<NodeFormula>, FormulaError>
    ensures { IfOk result (λ stops. stops ≡ flat_map (call_stop columns cells.now) edges.now) }
{
    let mut stops = Items::new(alloc);
    for edge in edges {
        add_call_stop(alloc, columns, cells, edge, &mut stops)?;
    }
    Ok(stops)
}

/// Adds the node that a call leads from.
fn add_call_stop(
    alloc: Global,
    columns: u32,
    cells: &[Cell<Formula>],
    edge: &Edge,
    stops: &mut Items<NodeFormula>,
) -> Result<(), FormulaError>
    ensures { OnOk result (stops.new ≡ stops.old ++ call_stop columns cells.now edge.now) }
{
    match edge.act {
        Act::Call { .. } => {
            stops.push(stop_at(alloc, columns, cells, edge.from)?)?;
            Ok(())
        }
        Act::Guard(_) | Act::Set(_, _) | Act::Any(_) => Ok(()),
    }
}

/// The entry, which is node 0, and behind it the heads.
fn point_stops(
    alloc: Global,
    columns: u32,
    cells: &[Cell<Formula>],
    heads: &[u32],
) -> Result<Items<NodeFormula>, FormulaError>
    ensures { IfOk result (λ stops. stops ≡ map (stop_at columns cells.now) (0 ∷ heads.now)) }
{
    let mut stops = Items::new(alloc);
    stops.push(stop_at(alloc, columns, cells, 0)?)?;
    for head in heads {
        stops.push(stop_at(alloc, columns, cells, *head)?)?;
    }
    Ok(stops)
}

fn stop_at(
    alloc: Global,
    columns: u32,
    cells: &[Cell<Formula>],
    node: u32,
) -> Result<NodeFormula, FormulaError>
    ensures { IfOk result (λ stop. stop ≡ stop_at columns cells.now node) }
{
    let formula = formula_at(alloc, columns, cells, node)?;
    Ok(NodeFormula { node, formula })
}

/// The formula at a node, by what stands at each: over so many columns, and none where no way
/// leads.
pub fn formula_at(
    alloc: Global,
    columns: u32,
    cells: &[Cell<Formula>],
    node: u32,
) -> Result<Option<Formula>, FormulaError>
    ensures { IfOk result (λ formula. formula ≡ formula_at columns cells.now node) }
{
    match cells.get(node as usize) {
        Some(cell) => formula_of(alloc, columns, cell),
        None => Ok(None),
    }
}

/// A cell as a formula over so many columns: none where no way leads, and the identity where
/// nothing was done.
fn formula_of(
    alloc: Global,
    columns: u32,
    cell: &Cell<Formula>,
) -> Result<Option<Formula>, FormulaError>
    ensures { IfOk result (λ formula. formula ≡ formula_of columns cell.now) }
{
    match cell {
        Cell::Zero => Ok(None),
        Cell::One => {
            let same = identity(alloc, columns)?;
            Ok(Some(same))
        }
        Cell::Item(f) => {
            let copy = f.clone()?;
            Ok(Some(copy))
        }
    }
}
