ghost use Rattle.std.specs.Prelude.{◌≡◌, ◌<◌, ◌++◌, length, map, replicate, IfOk, OnOk};
ghost use Rattle.std.specs.List.{AllByRecursion, flat_map};
ghost use Rattle.syntax_tree.specs.WellFormed.{IsWellFormed};
ghost use Rattle.syntax_tree.specs.declared.program.Proc.{Proc as Procedure};
ghost use Rattle.vocabularies.specs.Ends.{full_of};
ghost use Rattle.vocabularies.specs.Procs.{IsProcOf};
ghost use Rattle.leaf_cases.specs.Conditions.{AreKnown};
ghost use Rattle.proc_summary.specs.Parts.{IsGraphOf, IsOwnGraph, own_subject, edge_link, edge_leaf, losses_in_edge, AreActsOf, IsFit, ArePartsOf};

use flow_graph::{Edge, Graph, graph};
use items::Items;
use leaf_cases::leaf;
use path_expr::Link;
use polyhedra::Vocabulary;
use std::alloc::{AllocError, Global};
use syntax_tree::Program;
use transition_formula::{Formula, FormulaError, Loss};
use vocabularies::full;

/// The flow graph of a procedure.
pub(crate) fn graph_of(alloc: Global, program: &Program, proc: u32) -> Result<Graph, FormulaError>
    requires formed { IsWellFormed program.now }
    requires procedure { proc < length program.now.procs }
    ensures { IfOk result (IsGraphOf program.now proc) }
{
    Ok(graph(alloc, program, proc)?)
}

/// The flow graph of a procedure, and what is known of those that it calls.
#[derive(Clone, Copy)]
pub(crate) struct OwnGraph<'a> {
    pub(crate) program: &'a Program,
    /// The number of the procedure.
    pub(crate) proc: u32,
    pub(crate) graph: &'a Graph,
    /// The known formulas of procedures.
    pub(crate) known: &'a [Option<Formula>],
}

/// The edges of a procedure's graph as links, with the formula of each, what was lost in making
/// these, and the vocabulary of each node.
#[derive(Debug, Drop)]
pub(crate) struct Parts {
    pub(crate) links: Items<Link>,
    pub(crate) leaves: Items<Formula>,
    pub(crate) lost: Items<Loss>,
    pub(crate) nodes: Items<Vocabulary>,
}

pub(crate) fn parts_of(alloc: Global, own: OwnGraph) -> Result<Parts, FormulaError>
    requires { IsOwnGraph own }
    ensures made { (p : Procedure) → IsProcOf own.entry.program.now own.entry.proc p
        → IfOk result (ArePartsOf (own_subject own.entry p)) }
    ensures fit { IfOk result (λ parts. AllByRecursion IsFit parts.leaves) }
{
    let edges = own.graph.edges.as_slice();
    let mut lost = Items::new(alloc);
    let leaves = leaves_of(alloc, own.program, own.proc, edges, own.known, &mut lost)?;
    let links = links_of(alloc, edges)?;
    let nodes = full_vocabularies(alloc, own.program, own.proc, own.graph.nodes as usize)?;
    see_fit(leaves.as_slice());
    Ok(Parts {
        links,
        leaves,
        lost,
        nodes,
    })
}

fn links_of(alloc: Global, edges: &[Edge]) -> Result<Items<Link>, AllocError>
    ensures { IfOk result (λ links. links ≡ map edge_link edges.now) }
{
    let mut links = Items::new(alloc);
    for edge in edges {
        links.push(Link {
            from: edge.from,
            to: edge.to,
        })?;
    }
    Ok(links)
}

/// The formulas of edges. Losses are noted in the order of the edges.
fn leaves_of(
    alloc: Global,
    program: &Program,
    proc: u32,
    edges: &[Edge],
    known: &[Option<Formula>],
    lost: &mut Items<Loss>,
) -> Result<Items<Formula>, FormulaError>
    requires formed { IsWellFormed program.now }
    requires procedure { proc < length program.now.procs }
    requires acts { AreActsOf program.now proc edges.now }
    requires known { AreKnown program.now known.now }
    ensures made { IfOk result
        (λ leaves. leaves ≡ map (edge_leaf program.now proc known.now) edges.now) }
    ensures noted { OnOk result
        (lost.new ≡ lost.old ++ flat_map (losses_in_edge program.now proc known.now) edges.now) }
{
    let mut leaves = Items::new(alloc);
    for edge in edges {
        leaves.push(leaf(alloc, program, proc, &edge.act, known, lost)?)?;
    }
    Ok(leaves)
}

/// So many vocabularies of the states of a procedure, as for the nodes of a graph. An error is want
/// of memory.
pub fn full_vocabularies(
    alloc: Global,
    program: &Program,
    proc: u32,
    count: usize,
) -> Result<Items<Vocabulary>, AllocError>
    requires formed { IsWellFormed program.now }
    requires there { proc < length program.now.procs }
    ensures { (p : Procedure) → IsProcOf program.now proc p
        → IfOk result (λ nodes. nodes ≡ replicate count (full_of program.now p)) }
{
    let full = full(alloc, program, proc)?;
    copies_of(alloc, &full, count)
}

fn copies_of(alloc: Global, voc: &Vocabulary, count: usize) -> Result<Items<Vocabulary>, AllocError>
    ensures { IfOk result (λ copies. copies ≡ replicate count voc.now) }
{
    let mut copies = Items::new(alloc);
    for _place in 0..count {
        copies.push(voc.clone()?)?;
    }
    Ok(copies)
}

/// Each formula has the posts and columns that it says, as its type keeps them. It goes over the
/// formulas and has no part in an answer.
pub fn see_fit(leaves: &[Formula])
    ensures { AllByRecursion IsFit leaves.now }
{
    for leaf in leaves {
        let _ = leaf.cases();
    }
}
