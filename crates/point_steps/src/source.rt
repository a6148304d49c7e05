ghost use Rattle.std.specs.Prelude.{◌≡◌, ℕ, ◌<◌, length};
ghost use Rattle.flow_graph.specs.FlowGraph.{FlowGraph};
ghost use Rattle.leaf_cases.specs.Conditions.{columns_at};
ghost use Rattle.point_induction.specs.Points.{heads_of, is_head};
ghost use Rattle.point_steps.specs.Claims.{IsStepSource};
ghost use Rattle.point_steps.specs.Outs.{is_passed};

use flow_graph::Graph;
use path_expr::Cell;
use syntax_tree::Program;
use transition_formula::Formula;

/// A point of a procedure, from which steps are made, with the ways from it.
#[derive(Clone, Copy)]
pub struct StepSource<'a> {
    pub program: &'a Program,
    /// The number of the procedure.
    pub proc: u32,
    /// The graph of the procedure.
    pub graph: &'a Graph,
    /// The heads of its loops in ascending order.
    pub heads: &'a [u32],
    /// The node of the point.
    pub node: u32,
    /// What stands at each node where the ways from the point are evaluated: for each node of the
    /// graph, and behind these for the arrival at each head.
    pub cells: &'a [Cell<Formula>],
}

/// How many columns the states of the procedure have.
pub(crate) fn columns_of(source: StepSource) -> u32
    requires { IsStepSource source }
    ensures { result ≡ columns_at source.entry.program.now source.entry.proc }
{
    let p = &source.program.procs.as_slice()[source.proc as usize];
    (source.program.globals.len() + p.columns.len() + 1) as u32
}

/// Whether no head is entered on the way from a point to a node.
pub(crate) fn is_passed(heads: &[u32], point: u32, node: u32) -> bool
    ensures { (g : FlowGraph) → heads.now ≡ heads_of g → node < g.nodes
        → result ≡ is_passed g.arcs point node }
{
    node == point || !is_head(heads, node)
}

/// Whether a node is a head.
fn is_head(heads: &[u32], node: u32) -> bool
    ensures { (g : FlowGraph) → heads.now ≡ heads_of g → node < g.nodes
        → result ≡ is_head g.arcs node }
{
    match heads.binary_search(&node) {
        Ok(_place) => true,
        Err(_place) => false,
    }
}
