ghost use Rattle.std.specs.Prelude.{◌≡◌, ◌<◌, ◌^◌, ℕ, Some, slice_get, length, IfOk};
ghost use Rattle.path_expr.specs.declared.link.Link.{Link as SpecLink};
ghost use Rattle.path_expr.specs.Elimination.{last_table, way_at, path_at};
ghost use Rattle.path_expr.specs.Operations.{operations};
ghost use Rattle.path_expr.specs.Walks.{IsGraph};
ghost use Rattle.path_expr.specs.Runs.{Runs, error_of, Makes};
ghost use Rattle.path_expr.specs.Holds.{AreWays, AreCells};

use crate::algebra::Algebra;
use crate::arrival::find_ways;
use crate::beginning::{begin_table, edges};
use crate::cell::{Cell, ReachError};
use crate::elimination::eliminate_all;
use crate::link::Link;
use crate::table::Table;
use std::alloc::Global;

/// The ways to all places, in their order.
fn evaluate<A: Algebra>(
    alloc: Global,
    algebra: &mut A,
    nodes: u32,
    links: &[Link],
    source: u32,
) -> Result<Vec<Cell<A::Item>>, ReachError<A::Fault>>
    requires count { length links.now < 2 ^ 32 }
    requires graph { IsGraph nodes links.now }
    requires source { source < nodes }
    requires ends { (k : ℕ) (l : SpecLink) → slice_get links.now k ≡ Some l
        → A.ends algebra.old k l.from l.to }
    ensures length { IfOk result (λ found. length found.items ≡ nodes) }
    ensures made { Makes A.fits A.spans A.ends A.is_memory A.faults A.made A.stopped algebra.old
        algebra.new
        (operations nodes links.now source) result
        (λ found. AreWays A.fits A.spans source algebra.new
        (way_at (last_table nodes links.now source)) found.items) }
{
    let items = edges(alloc, algebra, links)?;
    let mut table = begin_table(alloc, algebra, items.as_slice(), links, source, nodes)?;
    let mut stars = Table::new(alloc, nodes)?;
    eliminate_all(alloc, algebra, &mut table, &mut stars, nodes)?;
    find_ways(alloc, algebra, &table, &mut stars, nodes)
}

/// The paths from the source to each node of a graph, put together by an algebra: at each node's
/// place the cell of its path expression, by the operations of the stated elimination, each once
/// and in its order. A cell is One at no node but the source. On an error a front of the operations
/// was answered, and the next one was refused.
pub fn reach<A: Algebra>(
    alloc: Global,
    algebra: &mut A,
    nodes: u32,
    links: &[Link],
    source: u32,
) -> Result<Vec<Cell<A::Item>>, ReachError<A::Fault>>
    requires count { length links.now < 2 ^ 32 }
    requires graph { IsGraph nodes links.now }
    requires source { source < nodes }
    requires ends { (k : ℕ) (l : SpecLink) → slice_get links.now k ≡ Some l
        → A.ends algebra.old k l.from l.to }
    ensures length { IfOk result (λ cells. length cells.items ≡ nodes) }
    ensures cells { IfOk result
        (λ cells. AreCells A.fits A.spans source algebra.new (path_at nodes links.now source)
        cells.items) }
    ensures run { Runs A.fits A.spans A.ends A.is_memory A.faults A.made A.stopped algebra.old
        algebra.new
        (operations nodes links.now source) (error_of result) }
{
    let mut cells = evaluate(alloc, algebra, nodes, links, source)?;
    let first = cells.remove(0);
    cells.insert(source as usize, first)?;
    Ok(cells)
}
