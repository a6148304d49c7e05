ghost use Rattle.std.specs.Prelude.{◌≡◌, ◌<◌, ◌≤◌, ◌+◌, ◌++◌, ◌∷◌, [], All, length, map, replicate, IfOk, OnOk};
ghost use Rattle.std.specs.List.{AllByRecursion, flat_map};
ghost use Rattle.syntax_tree.specs.Limits.{most_nodes};
ghost use Rattle.syntax_tree.specs.declared.program.Proc.{Proc as Procedure};
ghost use Rattle.flow_graph.specs.Plain.{plain, statement_of_act};
ghost use Rattle.leaf_cases.specs.Conditions.{IsActOf};
ghost use Rattle.vocabularies.specs.Ends.{full_of};
ghost use Rattle.vocabularies.specs.Procs.{IsProcOf};
ghost use Rattle.point_induction.specs.Heads.{AreInside, head_marks};
ghost use Rattle.point_induction.specs.Points.{heads_of};
ghost use Rattle.proc_summary.specs.Parts.{IsFit, edge_leaf, losses_in_edge};
ghost use Rattle.point_ways.specs.Parts.{IsKnownGraph, end_link, marked_edges, way_ends};

use crate::ends::{is_marked, way_ends};
use crate::parts::KnownGraph;
use flow_graph::{Edge, Graph};
use items::Items;
use leaf_cases::leaf;
use path_expr::Link;
use point_induction::heads;
use polyhedra::Vocabulary;
use proc_summary::full_vocabularies;
use std::alloc::{AllocError, Global};
use transition_formula::{Formula, FormulaError, Loss};

/// The links of the edges that start at nodes ahead.
pub(crate) fn way_links(
    alloc: Global,
    graph: &Graph,
    heads: &[bool],
    ahead: &[bool],
) -> Result<Items<Link>, AllocError>
    requires inside { AreInside graph.now }
    requires few { graph.now.nodes ≤ most_nodes }
    requires heads { heads.now ≡ head_marks (plain graph.now) }
    ensures { IfOk result
        (λ links. links
        ≡ map (end_link (way_ends (plain graph.now))) (marked_edges ahead.now graph.now.edges)) }
{
    let ends = way_ends(alloc, graph, heads)?;
    links_by(alloc, graph.edges.as_slice(), ends.as_slice(), ahead)
}

/// Those links, by the nodes to which ways lead by edges to nodes.
fn links_by(
    alloc: Global,
    edges: &[Edge],
    ends: &[u32],
    ahead: &[bool],
) -> Result<Items<Link>, AllocError>
    requires { All (λ edge. edge.to < length ends.now) edges.now }
    ensures { IfOk result
        (λ links. links ≡ map (end_link ends.now) (marked_edges ahead.now edges.now)) }
{
    let mut links = Items::new(alloc);
    for edge in edges {
        if is_marked(ahead, edge.from) {
            let to = ends[edge.to as usize];
            links.push(Link {
                from: edge.from,
                to,
            })?;
        }
    }
    Ok(links)
}

/// The formulas of the edges that start at nodes ahead. Losses are noted in the order of the edges.
pub(crate) fn way_leaves(
    alloc: Global,
    own: KnownGraph,
    ahead: &[bool],
    lost: &mut Items<Loss>,
) -> Result<Items<Formula>, FormulaError>
    requires { IsKnownGraph own }
    ensures made { IfOk result
        (λ leaves. leaves
        ≡ map (edge_leaf own.entry.program.now own.entry.proc own.entry.known.now)
        (marked_edges ahead.now own.entry.graph.now.edges)) }
    ensures noted { OnOk result
        (lost.new ≡ lost.old
        ++ flat_map (losses_in_edge own.entry.program.now own.entry.proc own.entry.known.now)
        (marked_edges ahead.now own.entry.graph.now.edges)) }
{
    let edges = own.graph.edges.as_slice();
    let mut leaves = Items::new(alloc);
    for edge in edges {
        leaves = with_leaf(alloc, own, ahead, leaves, edge, lost)?;
    }
    Ok(leaves)
}

/// The formulas, and behind them that of an edge if it starts at a node ahead.
fn with_leaf(
    alloc: Global,
    own: KnownGraph,
    ahead: &[bool],
    leaves: Items<Formula>,
    edge: &Edge,
    lost: &mut Items<Loss>,
) -> Result<Items<Formula>, FormulaError>
    requires own { IsKnownGraph own }
    requires edge { IsActOf own.program.now own.proc (statement_of_act edge.now.act) }
    ensures made { IfOk result
        (λ all. all ≡ leaves
        ++ map (edge_leaf own.entry.program.now own.entry.proc own.entry.known.now)
        (marked_edges ahead.now (edge.now ∷ []))) }
    ensures noted { OnOk result
        (lost.new ≡ lost.old
        ++ flat_map (losses_in_edge own.entry.program.now own.entry.proc own.entry.known.now)
        (marked_edges ahead.now (edge.now ∷ []))) }
{
    if !is_marked(ahead, edge.from) {
        return Ok(leaves);
    }
    let mut all = leaves;
    all.push(leaf(alloc, own.program, own.proc, &edge.act, own.known, lost)?)?;
    Ok(all)
}

/// The vocabulary of each node and of each arrival.
pub(crate) fn way_nodes(alloc: Global, own: KnownGraph) -> Result<Items<Vocabulary>, AllocError>
    requires { IsKnownGraph own }
    ensures { (p : Procedure) → IsProcOf own.entry.program.now own.entry.proc p
        → IfOk result
        (λ nodes. nodes
        ≡ replicate (own.entry.graph.now.nodes + length (heads_of (plain own.entry.graph.now)))
        (full_of own.entry.program.now p)) }
{
    let heads = heads(alloc, own.graph)?;
    let count = own.graph.nodes as usize + heads.len();
    full_vocabularies(alloc, own.program, own.proc, count)
}
