ghost use Rattle.std.specs.Prelude.{◌≡◌, ◌<◌, ◌++◌, ◌∷◌, [], length, map, IfOk, OnOk};
ghost use Rattle.syntax_tree.specs.WellFormed.{IsWellFormed};
ghost use Rattle.flow_graph.specs.FlowGraph.{graph_of};
ghost use Rattle.flow_graph.specs.Plain.{check_of, plain};
ghost use Rattle.analysis.specs.Claims.{IsStanding};
ghost use Rattle.analysis.specs.Judging.{check_with, checks_from};

use flow_graph::{CheckNode, Graph, graph};
use items::Items;
use std::alloc::Global;
use syntax_tree::Program;
use transition_formula::FormulaError;

/// Where an assertion stands: its number, its procedure, and its place among the assertions of
/// that.
#[derive(Clone, Copy, Debug, PartialEq, Eq)]
pub struct CheckAt {
    pub number: u32,
    pub proc: u32,
    pub check: u32,
}

/// The graph of each procedure, and where the assertions of all of them stand.
#[derive(Drop)]
pub struct Standing {
    pub graphs: Items<Graph>,
    pub checks: Items<CheckAt>,
}

/// The graphs of a program's procedures, each made once, and their assertions. The one error is
/// want of memory.
pub fn standing_of(alloc: Global, program: &Program) -> Result<Standing, FormulaError>
    requires { IsWellFormed program.now }
    ensures { IfOk result (IsStanding program.now) }
{
    let mut graphs = Items::new(alloc);
    let mut checks = Items::new(alloc);
    for proc in 0..program.procs.len() {
        add_proc(alloc, program, proc as u32, &mut graphs, &mut checks)?;
    }
    Ok(Standing { graphs, checks })
}

/// Adds the graph of a procedure, and where its assertions stand.
fn add_proc(
    alloc: Global,
    program: &Program,
    proc: u32,
    graphs: &mut Items<Graph>,
    checks: &mut Items<CheckAt>,
) -> Result<(), FormulaError>
    requires formed { IsWellFormed program.now }
    requires procedure { proc < length program.now.procs }
    ensures graphs { OnOk result
        (map plain graphs.new ≡ map plain graphs.old ++ graph_of program.now proc ∷ []) }
    ensures checks { OnOk result
        (checks.new ≡ checks.old ++ checks_from proc 0 (graph_of program.now proc).checks) }
{
    let graph = graph(alloc, program, proc)?;
    add_checks(proc, graph.checks.as_slice(), checks)?;
    graphs.push(graph)?;
    Ok(())
}

/// Adds where these assertions of a procedure stand.
fn add_checks(
    proc: u32,
    nodes: &[CheckNode],
    checks: &mut Items<CheckAt>,
) -> Result<(), FormulaError>
    ensures { OnOk result (checks.new ≡ checks.old ++ checks_from proc 0 (map check_of nodes.now)) }
{
    // No memory has so many assertions.
    if nodes.len() > u32::MAX as usize {
        return Err(FormulaError::Memory);
    }
    for (check, at) in nodes.iter().enumerate() {
        checks.push(CheckAt {
            number: at.number,
            proc,
            check: check as u32,
        })?;
    }
    Ok(())
}

/// The one with a number.
pub fn check_with(number: u32, checks: &[CheckAt]) -> Option<CheckAt>
    ensures { result ≡ check_with number checks.now }
{
    for check in checks {
        if check.number == number {
            return Some(*check);
        }
    }
    None
}
