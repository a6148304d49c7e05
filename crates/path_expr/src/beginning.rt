ghost use Rattle.std.specs.Prelude.{◌≡◌, ◌<◌, ◌≤◌, ◌⊎◌, ◌^◌, ◌∷◌, [], ℕ, Some, slice_get, length, IfOk};
ghost use Rattle.path_expr.specs.declared.link.Link.{Link as SpecLink};
ghost use Rattle.path_expr.specs.PathExpr.{PathExpr, Zero, Edge, join_of};
ghost use Rattle.path_expr.specs.Elimination.{path_through, first_table};
ghost use Rattle.path_expr.specs.Operations.{below, join_operation, join_operations, first_row_operations};
ghost use Rattle.path_expr.specs.Table.{place_count};
ghost use Rattle.path_expr.specs.Numbers.{numbers_at, path_through_at, joins_at, HaveItems, AllHaveItems};
ghost use Rattle.path_expr.specs.Sweeps.{with_cell, row_written};
ghost use Rattle.path_expr.specs.Runs.{Makes};
ghost use Rattle.path_expr.specs.Holds.{IsItem, IsItemOrZero, AreEdges, HoldsAll, node_at};
ghost use Rattle.path_expr.specs.Walks.{IsGraph};

use crate::algebra::Algebra;
use crate::cell::ReachError;
use crate::link::Link;
use crate::numbers::link_numbers;
use crate::rows::Rows;
use crate::steps::{copy, edge, join_onto};
use crate::table::Table;
use items::Items;
use std::alloc::Global;

/// The items of all edges, in their order.
pub(crate) fn edges<A: Algebra>(
    alloc: Global,
    algebra: &mut A,
    links: &[Link],
) -> Result<Vec<A::Item>, ReachError<A::Fault>>
    requires count { length links.now < 2 ^ 32 }
    requires ends { (k : ℕ) (l : SpecLink) → slice_get links.now k ≡ Some l
        → A.ends algebra.old k l.from l.to }
    ensures length { IfOk result (λ items. length items.items ≡ length links.now) }
    ensures made { Makes A.fits A.spans A.ends A.is_memory A.faults A.made A.stopped algebra.old
        algebra.new
        (below (λ number. Edge number ∷ []) (length links.now)) result
        (λ items. AreEdges A.fits A.spans algebra.new links.now items.items) }
{
    let mut items = Vec::new(alloc);
    for number in 0..links.len() {
        let item = edge(alloc, algebra, number as u32)?;
        items.push(item)?;
    }
    Ok(items)
}

/// The paths so far, or one more link.
fn join_link<A: Algebra>(
    alloc: Global,
    algebra: &mut A,
    before: Option<A::Item>,
    link: &A::Item,
) -> Result<A::Item, ReachError<A::Fault>>
    requires { (p : PathExpr) × (q : PathExpr) × (from : ℕ) × (to : ℕ)
        × IsItemOrZero A.fits A.spans algebra.old p before from to
        × IsItem A.fits A.spans algebra.old q link.now from to }
    ensures made { (p q : PathExpr) (from to : ℕ)
        → IsItemOrZero A.fits A.spans algebra.old p before from to →
        IsItem A.fits A.spans algebra.old q link.now from to →
        Makes A.fits A.spans A.ends A.is_memory A.faults A.made A.stopped algebra.old algebra.new
        (join_operation p q) result
        (λ item. IsItem A.fits A.spans algebra.new (join_of p q) item from to) }
{
    let link = copy(alloc, algebra, link)?;
    join_onto(alloc, algebra, before, link)
}

/// The paths from one place to another by one link, of the links with these numbers.
fn first_cell<A: Algebra>(
    alloc: Global,
    algebra: &mut A,
    items: &[A::Item],
    numbers: &[u32],
) -> Result<Option<A::Item>, ReachError<A::Fault>>
    requires { (from : ℕ) × (to : ℕ) × HaveItems A.fits A.spans algebra.old items.now numbers.now
        from to }
    ensures made { (from to : ℕ)
        → HaveItems A.fits A.spans algebra.old items.now numbers.now from to →
        Makes A.fits A.spans A.ends A.is_memory A.faults A.made A.stopped algebra.old algebra.new
        (join_operations Zero numbers.now) result
        (λ path. IsItemOrZero A.fits A.spans algebra.new (path_through Zero numbers.now) path from to) }
{
    let mut total = None;
    for number in numbers {
        let joined = join_link(alloc, algebra, total, &items[*number as usize])?;
        total = Some(joined);
    }
    Ok(total)
}

/// The cell for places i and j begins, by the links between them.
fn begin_cell<A: Algebra>(
    alloc: Global,
    algebra: &mut A,
    items: &[A::Item],
    numbers: &Rows<Items<u32>>,
    table: &mut Table<A::Item>,
    i: u32,
    j: u32,
) -> Result<(), ReachError<A::Fault>>
    requires from { i < place_count table.old }
    requires to { j < place_count table.old }
    requires links { (source : ℕ) × AllHaveItems A.fits A.spans source algebra.old items.now
        numbers.now }
    ensures places { place_count table.new ≡ place_count table.old }
    ensures made { (source : ℕ) (f : ℕ → ℕ → PathExpr)
        → AllHaveItems A.fits A.spans source algebra.old items.now numbers.now →
        HoldsAll A.fits A.spans source algebra.old f table.old → f i j ≡ Zero →
        Makes A.fits A.spans A.ends A.is_memory A.faults A.made A.stopped algebra.old algebra.new
        (joins_at numbers.now i j) result
        (λ _. HoldsAll A.fits A.spans source algebra.new (with_cell f i j (path_through_at numbers.now i j))
        table.new) }
{
    let Some(these) = numbers.get(i, j) else {
        return Ok(());
    };
    let first = first_cell(alloc, algebra, items, these.as_slice())?;
    let Some(path) = first else {
        return Ok(());
    };
    table.put(i, j, path)?;
    Ok(())
}

/// The cells of row i begin.
fn begin_row<A: Algebra>(
    alloc: Global,
    algebra: &mut A,
    items: &[A::Item],
    numbers: &Rows<Items<u32>>,
    table: &mut Table<A::Item>,
    nodes: u32,
    i: u32,
) -> Result<(), ReachError<A::Fault>>
    requires row { i < nodes }
    requires places { place_count table.old ≡ nodes }
    requires holds { (source : ℕ) × (f : ℕ → ℕ → PathExpr)
        × AllHaveItems A.fits A.spans source algebra.old items.now numbers.now
        × HoldsAll A.fits A.spans source algebra.old f table.old × ((j : ℕ) → f i j ≡ Zero) }
    ensures places { place_count table.new ≡ place_count table.old }
    ensures made { (source : ℕ) (f : ℕ → ℕ → PathExpr)
        → AllHaveItems A.fits A.spans source algebra.old items.now numbers.now →
        HoldsAll A.fits A.spans source algebra.old f table.old → ((j : ℕ) → f i j ≡ Zero) →
        Makes A.fits A.spans A.ends A.is_memory A.faults A.made A.stopped algebra.old algebra.new
        (below (joins_at numbers.now i) nodes) result
        (λ _. HoldsAll A.fits A.spans source algebra.new
        (row_written f i nodes (path_through_at numbers.now i)) table.new) }
{
    let mut from = 0;
    while let Some(j) = numbers.next(i, from, nodes) {
        begin_cell(alloc, algebra, items, numbers, table, i, j)?;
        from = j + 1;
    }
    Ok(())
}

/// The cells of all rows begin.
fn begin_rows<A: Algebra>(
    alloc: Global,
    algebra: &mut A,
    items: &[A::Item],
    numbers: &Rows<Items<u32>>,
    nodes: u32,
) -> Result<Table<A::Item>, ReachError<A::Fault>>
    requires links { (source : ℕ) × AllHaveItems A.fits A.spans source algebra.old items.now
        numbers.now }
    requires within { (i j : ℕ) → (nodes ≤ i) ⊎ (nodes ≤ j) → numbers_at numbers.now i j ≡ [] }
    ensures places { IfOk result (λ table. place_count table ≡ nodes) }
    ensures made { (source : ℕ)
        → AllHaveItems A.fits A.spans source algebra.old items.now numbers.now →
        Makes A.fits A.spans A.ends A.is_memory A.faults A.made A.stopped algebra.old algebra.new
        (below (λ i. below (joins_at numbers.now i) nodes) nodes) result
        (HoldsAll A.fits A.spans source algebra.new (path_through_at numbers.now)) }
{
    let mut table = Table::new(alloc, nodes)?;
    for i in 0..nodes {
        begin_row(alloc, algebra, items, numbers, &mut table, nodes, i)?;
    }
    Ok(table)
}

/// The table at the beginning.
pub(crate) fn begin_table<A: Algebra>(
    alloc: Global,
    algebra: &mut A,
    items: &[A::Item],
    links: &[Link],
    source: u32,
    nodes: u32,
) -> Result<Table<A::Item>, ReachError<A::Fault>>
    requires count { length links.now < 2 ^ 32 }
    requires counted { length items.now ≡ length links.now }
    requires edges { AreEdges A.fits A.spans algebra.old links.now items.now }
    requires graph { IsGraph nodes links.now }
    requires source { source < nodes }
    ensures places { IfOk result (λ table. place_count table ≡ nodes) }
    ensures made { Makes A.fits A.spans A.ends A.is_memory A.faults A.made A.stopped algebra.old
        algebra.new
        (below (first_row_operations nodes links.now source) nodes) result
        (HoldsAll A.fits A.spans source algebra.new (first_table links.now source)) }
{
    let numbers = link_numbers(alloc, links, source, nodes)?;
    begin_rows(alloc, algebra, items, &numbers, nodes)
}
