ghost use Rattle.std.specs.Prelude.{◌≡◌, ◌≤◌, ◌<◌, length, IfOk};
ghost use Rattle.syntax_tree.specs.WellFormed.{IsWellFormed};
ghost use Rattle.posing.specs.Follows.{Asks};
ghost use Rattle.proc_summary.specs.Flow.{formula_at, formula_of};
ghost use Rattle.context.specs.Claims.{AreEntries, AreFlows, EntriesHold, FlowsHold};
ghost use Rattle.context.specs.Entries.{entries_from, entries_in};

use crate::edges::{edges_of, node_of};
use crate::nodes::nodes_of;
use checked_tree::evaluate_formulas;
use farkas_check::Oracle;
use items::Items;
use path_expr::Cell;
use posing::{Log, WorkError};
use proc_summary::Flow;
use std::alloc::Global;
use syntax_tree::Program;
use transition_formula::{Formula, FormulaError, identity};

/// The entry of each procedure, by the flows of all: from no columns to the globals and parameters
/// with which it begins, by at most 16 cases of at most 64 rows and 64 auxiliaries. None for a
/// procedure to which no calls lead from `main`.
///
/// Where the flows hold of activations, and as long as the answers are true, an entry holds of each
/// activation in an execution from `main`, whether or not those below it on the stack return. What
/// is lost in making the leaves is noted before the first question.
///
/// # Errors
///
/// A question that the oracle refused, or want of memory.
#[tactic(auto, using(posing::proofs::Following::following), unfolding(crate::specs::Entries::entries_from))]
pub fn entries<O: Oracle>(
    alloc: Global,
    program: &Program,
    flows: &[Flow],
    oracle: &mut O,
    log: &mut Log,
) -> Result<Items<Option<Formula>>, WorkError>
    requires formed { IsWellFormed program.now }
    requires flows { AreFlows program.now flows.now }
    ensures follows { Asks O.asking oracle log result (entries_from program.now flows.now) }
    ensures fits { IfOk result (AreEntries program.now) }
    ensures holds { FlowsHold program.now flows.now → IfOk result (EntriesHold program.now) }
{
    let nodes = nodes_of(alloc, program)?;
    let edges = edges_of(alloc, program, flows)?;
    log.add_losses(alloc, edges.losses.as_slice())?;
    let cells = evaluate_formulas(
        alloc,
        edges.links.as_slice(),
        edges.leaves.as_slice(),
        nodes.as_slice(),
        0,
        oracle,
        log,
    )?;
    let made = entries_in(alloc, program, cells.as_slice())?;
    Ok(made)
}

/// The cell of each procedure's node as a formula.
fn entries_in(
    alloc: Global,
    program: &Program,
    cells: &[Cell<Formula>],
) -> Result<Items<Option<Formula>>, FormulaError>
    requires { IsWellFormed program.now }
    ensures { IfOk result (λ made. made ≡ entries_in program.now cells.now) }
{
    let mut made = Items::new(alloc);
    for number in 0..program.procs.len() {
        let node = node_of(program.main, number as u32);
        made.push(entry_at(alloc, cells, node)?)?;
    }
    Ok(made)
}

/// None where no way leads to the node.
fn entry_at(
    alloc: Global,
    cells: &[Cell<Formula>],
    node: u32,
) -> Result<Option<Formula>, FormulaError>
    ensures { IfOk result (λ entry. entry ≡ formula_at 0 cells.now node) }
{
    match cells.get(node as usize) {
        Some(cell) => entry_of(alloc, cell),
        None => Ok(None),
    }
}

fn entry_of(alloc: Global, cell: &Cell<Formula>) -> Result<Option<Formula>, FormulaError>
    ensures { IfOk result (λ entry. entry ≡ formula_of 0 cell.now) }
{
    match cell {
        Cell::Zero => Ok(None),
        Cell::One => {
            let same = identity(alloc, 0)?;
            Ok(Some(same))
        }
        Cell::Item(f) => {
            let copy = f.clone()?;
            Ok(Some(copy))
        }
    }
}
