ghost use Rattle.std.specs.Prelude.{◌<◌, IfOk};
ghost use Rattle.syntax_tree.specs.declared.program.Proc.{Proc as Procedure};
ghost use Rattle.vocabularies.specs.Procs.{IsProcOf};
ghost use Rattle.point_ways.specs.Parts.{AreWayParts, IsKnownGraph};

use crate::ahead::marks_ahead;
use crate::edges::{way_leaves, way_links, way_nodes};
use flow_graph::Graph;
use items::Items;
use path_expr::Link;
use point_induction::head_marks;
use polyhedra::Vocabulary;
use proc_summary::see_fit;
use std::alloc::Global;
use syntax_tree::Program;
use transition_formula::{Formula, FormulaError, Loss};

/// The flow graph of a procedure, and what is known of those that it calls.
#[derive(Clone, Copy)]
pub struct KnownGraph<'a> {
    pub program: &'a Program,
    /// The number of the procedure.
    pub proc: u32,
    pub graph: &'a Graph,
    /// The known formulas of procedures.
    pub known: &'a [Option<Formula>],
}

/// The edges of the ways from a source as links, with the formula of each, what was lost in making
/// these, and the vocabulary of each node and of each arrival.
#[derive(Debug, Drop)]
pub(crate) struct WayParts {
    pub(crate) links: Items<Link>,
    pub(crate) leaves: Items<Formula>,
    pub(crate) lost: Items<Loss>,
    pub(crate) nodes: Items<Vocabulary>,
}

pub(crate) fn way_parts(
    alloc: Global,
    own: KnownGraph,
    source: u32,
) -> Result<WayParts, FormulaError>
    requires { IsKnownGraph own }
    ensures { (p : Procedure) → IsProcOf own.entry.program.now own.entry.proc p
        → IfOk result (AreWayParts own.entry p source) }
{
    let heads = head_marks(alloc, own.graph)?;
    let ahead = marks_ahead(alloc, own.graph, heads.as_slice(), source)?;
    let mut lost = Items::new(alloc);
    let leaves = way_leaves(alloc, own, ahead.as_slice(), &mut lost)?;
    let links = way_links(alloc, own.graph, heads.as_slice(), ahead.as_slice())?;
    let nodes = way_nodes(alloc, own)?;
    see_fit(leaves.as_slice());
    Ok(WayParts {
        links,
        leaves,
        lost,
        nodes,
    })
}
