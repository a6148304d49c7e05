ghost use Rattle.std.specs.Prelude.{◌≡◌, ◌<◌, ◌&&◌, ◌||◌, ◌++◌, ◌∷◌, [], false, not, get_or, length, replicate, slice_set, IfOk};
ghost use Rattle.std.specs.List.{list_any};
ghost use Rattle.flow_graph.specs.Plain.{plain};
ghost use Rattle.point_induction.specs.Heads.{AreInside, head_marks};
ghost use Rattle.point_ways.specs.Parts.{all_starts};
ghost use Rattle.point_ways.specs.Ways.{marks_ahead};

use crate::ends::is_marked;
use flow_graph::Graph;
use items::Items;
use std::alloc::{AllocError, Global};

/// For each node whether it is ahead of a source, by the marks of the heads.
pub(crate) fn marks_ahead(
    alloc: Global,
    graph: &Graph,
    heads: &[bool],
    source: u32,
) -> Result<Items<bool>, AllocError>
    requires inside { AreInside graph.now }
    requires heads { heads.now ≡ head_marks (plain graph.now) }
    ensures { IfOk result
        (λ marks. marks ≡ marks_ahead (plain graph.now).arcs source graph.now.nodes) }
{
    let starts = all_starts(alloc, graph)?;
    let mut marks = Items::new(alloc);
    for node in 0..graph.nodes {
        let leads = some_is_marked(marks.as_slice(), starts_of(starts.as_slice(), node));
        let led = is_led(node == source, is_marked(heads, node), leads);
        marks.push(led)?;
    }
    Ok(marks)
}

/// Whether a node is ahead, by whether it is the source, whether it is a head, and whether an edge
/// leads to it from a node ahead.
fn is_led(is_source: bool, is_head: bool, leads: bool) -> bool
    ensures { result ≡ (is_source || (not is_head && leads)) }
{
    is_source || (!is_head && leads)
}

/// Whether one of these nodes is marked.
fn some_is_marked(marks: &[bool], nodes: &[u32]) -> bool
    ensures { result ≡ list_any (λ node. get_or marks.now node false) nodes.now }
{
    nodes.iter().any(|node| is_marked(marks, *node))
}

/// For each node the nodes at which edges start that end there, in the order of the edges.
fn all_starts(alloc: Global, graph: &Graph) -> Result<Items<Items<u32>>, AllocError>
    requires { AreInside graph.now }
    ensures { IfOk result (λ starts. starts ≡ all_starts (plain graph.now).arcs graph.now.nodes) }
{
    let edges = graph.edges.as_slice();
    let mut starts = no_starts(alloc, graph.nodes)?;
    for edge in edges {
        starts = with_start(starts, edge.to, edge.from)?;
    }
    Ok(starts)
}

fn no_starts(alloc: Global, count: u32) -> Result<Items<Items<u32>>, AllocError>
    ensures { IfOk result (λ starts. starts ≡ replicate count []) }
{
    let mut starts = Items::new(alloc);
    for _node in 0..count {
        starts.push(Items::new(alloc))?;
    }
    Ok(starts)
}

/// The lists with a node more behind those of a node.
fn with_start(
    starts: Items<Items<u32>>,
    node: u32,
    start: u32,
) -> Result<Items<Items<u32>>, AllocError>
    requires { node < length starts }
    ensures { IfOk result
        (λ all. all ≡ slice_set starts node (get_or starts node [] ++ start ∷ [])) }
{
    let mut starts = starts.into_vec();
    starts[node as usize].push(start)?;
    Ok(Items::from_vec(starts))
}

/// Those of a node.
fn starts_of(starts: &[Items<u32>], node: u32) -> &[u32]
    requires { node < length starts.now }
    ensures { result.now ≡ get_or starts.now node [] }
{
    starts[node as usize].as_slice()
}
