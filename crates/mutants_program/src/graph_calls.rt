ghost use Rattle.std.specs.Prelude.{◌≡◌, ◌<◌, length, All, IfOk};
ghost use Rattle.flow_graph.specs.FlowGraph.{graph_of};
ghost use Rattle.flow_graph.specs.Groups.{AreGroups};
ghost use Rattle.flow_graph.specs.Plain.{plain};
ghost use Rattle.syntax_tree.specs.WellFormed.{IsWellFormed};

use flow_graph::{Graph, GraphError, Group};
use items::Items;
use std::alloc::{AllocError, Global};
use syntax_tree::Program;

/// The flow graph of the procedure at this place of a program.
pub fn graph(alloc: Global, program: &Program, proc: u32) -> Result<Graph, AllocError>
    requires fit { IsWellFormed program.now }
    requires there { proc < length program.now.procs }
    ensures exact { IfOk result (λ g. plain g ≡ graph_of program.now proc) }
    ensures edges { IfOk result
        (λ g. All (λ edge. (edge.from < g.nodes) × (edge.to < g.nodes)) g.edges) }
    ensures checks { IfOk result (λ g. All (λ check. check.node < g.nodes) g.checks) }
{
    flow_graph::graph(alloc, program, proc)
}

/// The groups of a program's procedures, each behind those that it calls.
pub fn groups(alloc: Global, program: &Program) -> Result<Items<Group>, GraphError>
    ensures { IfOk result (λ groups. AreGroups program.now groups) }
{
    flow_graph::groups(alloc, program)
}
