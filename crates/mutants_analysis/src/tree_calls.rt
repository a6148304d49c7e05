ghost use Rattle.std.specs.Prelude.{◌≡◌, ◌<◌, ◌^◌, ℕ, Some, length, slice_get, IfOk};
ghost use Rattle.path_expr.specs.declared.link.Link.{Link as SpecLink};
ghost use Rattle.path_expr.specs.Elimination.{path_at};
ghost use Rattle.path_expr.specs.Holds.{AreCells};
ghost use Rattle.path_expr.specs.Operations.{operations};
ghost use Rattle.path_expr.specs.Runs.{Runs, error_of};
ghost use Rattle.path_expr.specs.Walks.{IsGraph};
ghost use Rattle.posing.specs.Follows.{Asks};
ghost use Rattle.checked_tree.specs.Evaluation.{evaluated_cells};
ghost use Rattle.checked_tree.specs.Graph.{graph_of};
ghost use Rattle.checked_tree.specs.Grown.{AreGrown, formulas_of, result_map, trees_of};
ghost use Rattle.checked_tree.specs.Law.{AreFittedCells, CellsHold, IsEvaluated};

use checked_tree::Checked;
use farkas_check::Oracle;
use items::Items;
use path_expr::{Algebra, Cell, Link, ReachError};
use polyhedra::{Log, Vocabulary, WorkError};
use std::alloc::Global;
use transition_formula::Formula;

/// The paths from a source to each node of a graph, put together by an algebra.
pub fn reach<A: Algebra>(
    alloc: Global,
    algebra: &mut A,
    nodes: u32,
    links: &[Link],
    source: u32,
) -> Result<Vec<Cell<A::Item>>, ReachError<A::Fault>>
    requires count { length links.now < 2 ^ 32 }
    requires graph { IsGraph nodes links.now }
    requires source { source < nodes }
    requires ends { (k : ℕ) (l : SpecLink) → slice_get links.now k ≡ Some l
        → A.ends algebra.old k l.from l.to }
    ensures length { IfOk result (λ cells. length cells.items ≡ nodes) }
    ensures cells { IfOk result
        (λ cells. AreCells A.fits A.spans source algebra.new (path_at nodes links.now source)
        cells.items) }
    ensures run { Runs A.fits A.spans A.ends A.is_memory A.faults A.made A.stopped algebra.old
        algebra.new
        (operations nodes links.now source) (error_of result) }
{
    path_expr::reach(alloc, algebra, nodes, links, source)
}

/// The trees of the walks from a source.
pub fn evaluate<O: Oracle>(
    alloc: Global,
    links: &[Link],
    leaves: &[Formula],
    nodes: &[Vocabulary],
    source: u32,
    oracle: &mut O,
    log: &mut Log,
) -> Result<Items<Cell<Checked>>, WorkError>
    requires graph { IsEvaluated (graph_of links.now leaves.now nodes.now) source }
    requires few_links { length links.now < 2 ^ 32 }
    requires few_nodes { length nodes.now < 2 ^ 32 }
    ensures follows { Asks O.asking oracle log
        (result_map formulas_of result)
        (evaluated_cells (graph_of links.now leaves.now nodes.now) source) }
    ensures grown { IfOk result
        (λ cells. AreGrown (graph_of links.now leaves.now nodes.now) source log.old log.new
        (trees_of cells)) }
    ensures holds { IfOk result
        (λ cells. CellsHold (graph_of links.now leaves.now nodes.now) source (formulas_of cells)) }
    ensures fits { IfOk result
        (λ cells. AreFittedCells (graph_of links.now leaves.now nodes.now) source
        (formulas_of cells)) }
{
    checked_tree::evaluate(alloc, links, leaves, nodes, source, oracle, log)
}
