ghost use Rattle.std.specs.Prelude.{◌≡◌, ◌≤◌, false, get_or, IfOk};
ghost use Rattle.flow_graph.specs.Plain.{plain};
ghost use Rattle.syntax_tree.specs.Limits.{most_nodes};
ghost use Rattle.point_induction.specs.Heads.{head_marks};
ghost use Rattle.point_ways.specs.Parts.{way_ends};

use flow_graph::Graph;
use items::Items;
use std::alloc::{AllocError, Global};

/// Whether a node is marked. Past the end none is.
pub(crate) fn is_marked(marks: &[bool], node: u32) -> bool
    ensures { result ≡ get_or marks.now node false }
{
    match marks.get(node as usize) {
        Some(mark) => *mark,
        None => false,
    }
}

/// For each node to which node a way leads by an edge to it: to itself, or where it is a head to
/// its arrival. Arrivals stand behind the nodes of the graph, in the order of the heads.
pub(crate) fn way_ends(
    alloc: Global,
    graph: &Graph,
    heads: &[bool],
) -> Result<Items<u32>, AllocError>
    requires few { graph.now.nodes ≤ most_nodes }
    requires heads { heads.now ≡ head_marks (plain graph.now) }
    ensures { IfOk result (λ ends. ends ≡ way_ends (plain graph.now)) }
{
    let mut arrival = graph.nodes;
    let mut ends = Items::new(alloc);
    for node in 0..graph.nodes {
        if is_marked(heads, node) {
            ends.push(arrival)?;
            arrival += 1;
        } else {
            ends.push(node)?;
        }
    }
    Ok(ends)
}
