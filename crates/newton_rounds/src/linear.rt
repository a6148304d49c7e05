ghost use Rattle.std.specs.Prelude.{◌≡◌, ◌<◌, ◌↔◌, All, IfOk, IsTrue, length, map, not};
ghost use Rattle.std.specs.Option.{is_some};
ghost use Rattle.std.specs.List.{list_all};
ghost use Rattle.syntax_tree.specs.WellFormed.{IsWellFormed};
ghost use Rattle.flow_graph.specs.FlowGraph.{graph_of};
ghost use Rattle.flow_graph.specs.Plain.{arc_of, statement_of_act};
ghost use Rattle.proc_summary.specs.Subject.{link_of};
ghost use Rattle.newton_rounds.specs.Members.{AreApart, IsLinear, calls_in, is_call_to, place_of};
ghost use Rattle.newton_rounds.specs.Reached.{is_marked};

use crate::reaching::reach_marks;
use flow_graph::{Act, Edge, Group, graph};
use items::Items;
use path_expr::Link;
use posing::WorkError;
use std::alloc::{AllocError, Global};
use syntax_tree::Program;

/// Whether no call of a group can follow another in one activation of a procedure of the group.
pub fn is_linear(alloc: Global, program: &Program, group: &Group) -> Result<bool, WorkError>
    requires formed { IsWellFormed program.now }
    requires there { All (λ proc. proc < length program.now.procs) group.now.procs }
    ensures { IfOk result (λ linear. IsTrue linear ↔ IsLinear program.now group.now.procs) }
{
    let procs = group.procs.as_slice();
    for proc in procs {
        if !are_apart(alloc, program, *proc, procs)? {
            return Ok(false);
        }
    }
    Ok(true)
}

/// Whether in no activation of a procedure a call of these follows another.
fn are_apart(alloc: Global, program: &Program, proc: u32, procs: &[u32]) -> Result<bool, WorkError>
    requires formed { IsWellFormed program.now }
    requires there { proc < length program.now.procs }
    ensures { IfOk result
        (λ apart. IsTrue apart ↔ AreApart procs.now (graph_of program.now proc).arcs) }
{
    let Ok(graph) = graph(alloc, program, proc) else {
        return Err(WorkError::Memory);
    };
    let edges = graph.edges.as_slice();
    Ok(edges_are_apart(alloc, graph.nodes, edges, procs)?)
}

fn edges_are_apart(
    alloc: Global,
    nodes: u32,
    edges: &[Edge],
    procs: &[u32],
) -> Result<bool, AllocError>
    requires { All (λ edge. (edge.from < nodes) × (edge.to < nodes)) edges.now }
    ensures { IfOk result (λ apart. IsTrue apart ↔ AreApart procs.now (map arc_of edges.now)) }
{
    let links = links_of(alloc, edges)?;
    let ends = ends_of_calls(alloc, edges, procs)?;
    let marks = reach_marks(alloc, nodes, links.as_slice(), ends.as_slice())?;
    Ok(no_call_begins(edges, procs, marks.as_slice()))
}

fn links_of(alloc: Global, edges: &[Edge]) -> Result<Items<Link>, AllocError>
    ensures { IfOk result (λ links. links ≡ map link_of (map arc_of edges.now)) }
{
    let mut links = Items::new(alloc);
    for edge in edges {
        links.push(Link {
            from: edge.from,
            to: edge.to,
        })?;
    }
    Ok(links)
}

/// Where the edges end that call one of these.
fn ends_of_calls(alloc: Global, edges: &[Edge], procs: &[u32]) -> Result<Items<u32>, AllocError>
    ensures { IfOk result
        (λ ends. ends ≡ map (λ way. way.to) (calls_in procs.now (map arc_of edges.now))) }
{
    let mut ends = Items::new(alloc);
    for edge in edges {
        if is_call_to(&edge.act, procs) {
            ends.push(edge.to)?;
        }
    }
    Ok(ends)
}

/// Whether no edge that calls one of these begins at a node with a mark.
fn no_call_begins(edges: &[Edge], procs: &[u32], marks: &[bool]) -> bool
    requires { All (λ edge. edge.from < length marks.now) edges.now }
    ensures { result ≡ list_all (λ way. not (is_marked marks.now way.from))
        (calls_in procs.now (map arc_of edges.now)) }
{
    for edge in edges {
        if is_call_to(&edge.act, procs) && marks[edge.from as usize] {
            return false;
        }
    }
    true
}

fn is_call_to(act: &Act, procs: &[u32]) -> bool
    ensures { result ≡ is_call_to procs.now (statement_of_act act.now) }
{
    match act {
        Act::Call { proc, .. } => has(procs, *proc),
        Act::Guard(_) | Act::Set(..) | Act::Any(_) => false,
    }
}

fn has(procs: &[u32], proc: u32) -> bool
    ensures { result ≡ is_some (place_of proc procs.now) }
{
    for other in procs {
        if *other == proc {
            return true;
        }
    }
    false
}
