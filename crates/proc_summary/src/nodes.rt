ghost use Rattle.std.specs.Prelude.{◌≡◌, ◌<◌, length, IfOk};
ghost use Rattle.posing.specs.Logs.{loss_notes, with_notes};
ghost use Rattle.checked_tree.specs.Grown.{AreGrown, formulas_of, result_map, trees_of};
ghost use Rattle.syntax_tree.specs.WellFormed.{IsWellFormed};
ghost use Rattle.posing.specs.Follows.{Asks};
ghost use Rattle.leaf_cases.specs.Conditions.{AreKnown};
ghost use Rattle.checked_tree.specs.Law.{AreFittedCells};
ghost use Rattle.syntax_tree.specs.declared.program.Proc.{Proc as Procedure};
ghost use Rattle.vocabularies.specs.Procs.{IsProcOf};
ghost use Rattle.proc_summary.specs.Subject.{graph_by, own_graph, subject_of};
ghost use Rattle.proc_summary.specs.Flow.{cells_from};
ghost use Rattle.proc_summary.specs.Claims.{HoldsOfWalks};
ghost use Rattle.proc_summary.specs.Parts.{IsOwnGraph, own_subject};

use crate::edges::{OwnGraph, graph_of, parts_of};
use checked_tree::{Checked, evaluate, formulas_of};
use farkas_check::Oracle;
use items::Items;
use path_expr::Cell;
use polyhedra::{Log, WorkError};
use std::alloc::Global;
use syntax_tree::Program;
use transition_formula::Formula;

/// What stands at each node of a procedure's graph, from a source among its nodes, by the known
/// formulas of procedures; a call of one without a known formula leads nowhere.
#[tactic(auto, using(posing::proofs::Following::following))]
pub fn cells<O: Oracle>(
    alloc: Global,
    program: &Program,
    proc: u32,
    known: &[Option<Formula>],
    source: u32,
    oracle: &mut O,
    log: &mut Log,
) -> Result<Items<Cell<Formula>>, WorkError>
    requires formed { IsWellFormed program.now }
    requires procedure { proc < length program.now.procs }
    requires known { AreKnown program.now known.now }
    requires source { (p : Procedure) → IsProcOf program.now proc p
        → source < (own_graph p).nodes }
    ensures follows { (p : Procedure) → IsProcOf program.now proc p
        → Asks O.asking oracle log result (cells_from (subject_of program.now p known.now) source) }
    ensures fits { (p : Procedure) → IsProcOf program.now proc p
        → IfOk result (AreFittedCells (graph_by (subject_of program.now p known.now)) source) }
    ensures holds { (p : Procedure) → IsProcOf program.now proc p
        → IfOk result (HoldsOfWalks program.now p known.now source) }
{
    let graph = graph_of(alloc, program, proc)?;
    let own = OwnGraph {
        program,
        proc,
        graph: &graph,
        known,
    };
    cells_of(alloc, own, source, oracle, log)
}

/// The trees that stand at the nodes of a procedure's graph, from a source among its nodes: what
/// holds there, and at each step the answers that show it. Their formulas are those of `cells`,
/// under the same answers.
#[tactic(auto, using(posing::proofs::Following::following))]
pub fn trees<O: Oracle>(
    alloc: Global,
    program: &Program,
    proc: u32,
    known: &[Option<Formula>],
    source: u32,
    oracle: &mut O,
    log: &mut Log,
) -> Result<Items<Cell<Checked>>, WorkError>
    requires formed { IsWellFormed program.now }
    requires procedure { proc < length program.now.procs }
    requires known { AreKnown program.now known.now }
    requires source { (p : Procedure) → IsProcOf program.now proc p
        → source < (own_graph p).nodes }
    ensures follows { (p : Procedure) → IsProcOf program.now proc p
        → Asks O.asking oracle log (result_map formulas_of result)
        (cells_from (subject_of program.now p known.now) source) }
    ensures grown { (p : Procedure) → IsProcOf program.now proc p
        → IfOk result
        (λ cells. AreGrown (graph_by (subject_of program.now p known.now)) source
        (with_notes log.old (loss_notes (subject_of program.now p known.now).lost)) log.new
        (trees_of cells)) }
{
    let graph = graph_of(alloc, program, proc)?;
    let own = OwnGraph {
        program,
        proc,
        graph: &graph,
        known,
    };
    trees_in(alloc, own, source, oracle, log)
}

/// What stands at each node, by the procedure's graph.
pub(crate) fn cells_of<O: Oracle>(
    alloc: Global,
    own: OwnGraph,
    source: u32,
    oracle: &mut O,
    log: &mut Log,
) -> Result<Items<Cell<Formula>>, WorkError>
    requires own { IsOwnGraph own }
    requires source { source < own.graph.now.nodes }
    ensures follows { (p : Procedure) → IsProcOf own.entry.program.now own.entry.proc p
        → Asks O.asking oracle log result (cells_from (own_subject own.entry p) source) }
    ensures fits { (p : Procedure) → IsProcOf own.entry.program.now own.entry.proc p
        → IfOk result (AreFittedCells (graph_by (own_subject own.entry p)) source) }
    ensures holds { (p : Procedure) → IsProcOf own.entry.program.now own.entry.proc p
        → IfOk result (HoldsOfWalks own.entry.program.now p own.entry.known.now source) }
{
    let trees = trees_in(alloc, own, source, oracle, log)?;
    let cells = formulas_of(alloc, trees.as_slice())?;
    Ok(cells)
}

/// The trees, by the procedure's graph.
#[tactic(auto, using(posing::proofs::Following::following), unfolding(crate::specs::Flow::cells_from))]
fn trees_in<O: Oracle>(
    alloc: Global,
    own: OwnGraph,
    source: u32,
    oracle: &mut O,
    log: &mut Log,
) -> Result<Items<Cell<Checked>>, WorkError>
    requires own { IsOwnGraph own }
    requires source { source < own.graph.now.nodes }
    ensures follows { (p : Procedure) → IsProcOf own.entry.program.now own.entry.proc p
        → Asks O.asking oracle log (result_map formulas_of result)
        (cells_from (own_subject own.entry p) source) }
    ensures grown { (p : Procedure) → IsProcOf own.entry.program.now own.entry.proc p
        → IfOk result
        (λ cells. AreGrown (graph_by (own_subject own.entry p)) source
        (with_notes log.old (loss_notes (own_subject own.entry p).lost)) log.new
        (trees_of cells)) }
    ensures fits { (p : Procedure) → IsProcOf own.entry.program.now own.entry.proc p
        → IfOk result
        (λ cells. AreFittedCells (graph_by (own_subject own.entry p)) source
        (formulas_of cells)) }
    ensures holds { (p : Procedure) → IsProcOf own.entry.program.now own.entry.proc p
        → IfOk result (λ cells. HoldsOfWalks own.entry.program.now p own.entry.known.now source
        (formulas_of cells)) }
{
    let parts = parts_of(alloc, own)?;
    log.add_losses(alloc, parts.lost.as_slice())?;
    evaluate(
        alloc,
        parts.links.as_slice(),
        parts.leaves.as_slice(),
        parts.nodes.as_slice(),
        source,
        oracle,
        log,
    )
}
