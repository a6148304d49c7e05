ghost use Rattle.std.specs.Prelude.{◌≡◌, ◌<◌, All, length, IfOk};
ghost use Rattle.flow_graph.specs.FlowGraph.{graph_of};
ghost use Rattle.point_induction.specs.Heads.{AreInside};
ghost use Rattle.point_induction.specs.Points.{heads_of};
ghost use Rattle.proc_summary.specs.Parts.{IsGraphOf};
ghost use Rattle.point_rounds.specs.Source.{IsRoundSource, all_heads};

use crate::round::PointState;
use crate::table::list_at;
use flow_graph::Graph;
use items::Items;
use point_induction::heads;
use std::alloc::{AllocError, Global};
use syntax_tree::Program;
use transition_formula::Formula;

/// What rounds are made of.
#[derive(Clone, Copy)]
pub struct RoundSource<'a> {
    pub program: &'a Program,
    /// The flow graph of each procedure, by its number.
    pub graphs: &'a [Graph],
    /// The heads of each of these graphs, in the order of their nodes.
    pub heads: &'a [Items<u32>],
    /// The known formula of each procedure, by its number.
    pub known: &'a [Option<Formula>],
    /// The states of points, in their order.
    pub states: &'a [PointState],
}

/// The heads of each graph, in the order of their nodes. An error is want of memory.
pub fn all_heads(alloc: Global, graphs: &[Graph]) -> Result<Items<Items<u32>>, AllocError>
    requires { All AreInside graphs.now }
    ensures { IfOk result (λ all. all ≡ all_heads graphs.now) }
{
    let mut all = Items::new(alloc);
    for graph in graphs {
        all.push(heads(alloc, graph)?)?;
    }
    Ok(all)
}

/// The graph of a procedure of the program.
pub(crate) fn graph_at<'a>(source: RoundSource<'a>, proc: u32) -> &'a Graph
    requires source { IsRoundSource source }
    requires procedure { proc < length source.program.now.procs }
    ensures { IsGraphOf source.entry.program.now proc result.now }
{
    &source.graphs[proc as usize]
}

/// The heads of a procedure; none of one that is not there.
pub(crate) fn heads_at<'a>(source: RoundSource<'a>, proc: u32) -> &'a [u32]
    requires { IsRoundSource source }
    ensures { result.now ≡ heads_of (graph_of source.entry.program.now proc) }
{
    list_at(source.heads, proc as usize)
}
