ghost use Rattle.std.specs.Prelude.{◌<◌, IfOk};
ghost use Rattle.syntax_tree.specs.declared.program.Proc.{Proc as Procedure};
ghost use Rattle.posing.specs.Follows.{Asks};
ghost use Rattle.vocabularies.specs.Procs.{IsProcOf};
ghost use Rattle.forward_graphs.specs.Law.{AreFittedCells};
ghost use Rattle.point_ways.specs.Claims.{WaysHold};
ghost use Rattle.point_ways.specs.Parts.{IsKnownGraph, own_ways};
ghost use Rattle.point_ways.specs.Ways.{ways_from};

use crate::parts::{KnownGraph, way_parts};
use farkas_check::Oracle;
use forward_graphs::{ForwardGraph, walk_cells};
use items::Items;
use path_expr::Cell;
use polyhedra::{Log, WorkError};
use std::alloc::Global;
use transition_formula::Formula;

/// What holds between the state at a source, a point of a procedure, and the states to which ways
/// lead that enter no head: a cell for each node of its graph, and behind these one for the
/// arrival at each head, in the order of the heads. A call of a procedure without a known formula
/// leads nowhere.
///
/// What is lost is noted, that of the edges before the first question. An error is a question that
/// the oracle refused, or want of memory.
#[tactic(auto, using(posing::proofs::Following::following), unfolding(crate::specs::Ways::ways_from))]
pub fn way_cells<O: Oracle>(
    alloc: Global,
    own: KnownGraph,
    source: u32,
    oracle: &mut O,
    log: &mut Log,
) -> Result<Items<Cell<Formula>>, WorkError>
    requires own { IsKnownGraph own }
    requires source { source < own.graph.now.nodes }
    ensures follows { (p : Procedure) → IsProcOf own.entry.program.now own.entry.proc p
        → Asks O.asking oracle log result
        (ways_from own.entry.program.now p own.entry.known.now source) }
    ensures fits { (p : Procedure) → IsProcOf own.entry.program.now own.entry.proc p
        → IfOk result (AreFittedCells (own_ways own.entry p source) source) }
    ensures holds { (p : Procedure) → IsProcOf own.entry.program.now own.entry.proc p
        → IfOk result (WaysHold own.entry.program.now p own.entry.known.now source) }
{
    let parts = way_parts(alloc, own, source)?;
    log.add_losses(alloc, parts.lost.as_slice())?;
    let graph = ForwardGraph {
        links: parts.links.as_slice(),
        leaves: parts.leaves.as_slice(),
        nodes: parts.nodes.as_slice(),
    };
    walk_cells(alloc, graph, source, oracle, log)
}
