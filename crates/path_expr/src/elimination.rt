ghost use Rattle.std.specs.Prelude.{◌≡◌, ◌≢◌, ◌<◌, ◌≤◌, ◌-◌, ℕ, List, None, IfOk, OnOk};
ghost use Rattle.path_expr.specs.declared.link.Link.{Link};
ghost use Rattle.path_expr.specs.PathExpr.{PathExpr, seq_of, join_of, star_of};
ghost use Rattle.path_expr.specs.Elimination.{after_elimination, first_table, last_table};
ghost use Rattle.path_expr.specs.Operations.{below, star_operation, row_operations, place_operations, eliminations};
ghost use Rattle.path_expr.specs.Sweeps.{with_cell, step_operations, swept};
ghost use Rattle.path_expr.specs.Runs.{Runs, error_of, Makes};
ghost use Rattle.path_expr.specs.Holds.{IsItem, IsItemOrOne, HoldsAll, node_at};
ghost use Rattle.path_expr.specs.Table.{cell, place_count};

use crate::algebra::Algebra;
use crate::cell::ReachError;
use crate::steps::{join_onto, path_with_turns, seq, star};
use crate::table::Table;
use std::alloc::Global;

/// A way from place i to place n goes on from n to place j.
fn eliminate_cell<A: Algebra>(
    alloc: Global,
    algebra: &mut A,
    table: &mut Table<A::Item>,
    way: &A::Item,
    n: u32,
    i: u32,
    j: u32,
) -> Result<(), ReachError<A::Fault>>
    requires from { i < place_count table.old }
    requires to { j < place_count table.old }
    requires holds { (source : ℕ) × (f : ℕ → ℕ → PathExpr) × (w : PathExpr)
        × HoldsAll A.fits A.spans source algebra.old f table.old
        × IsItem A.fits A.spans algebra.old w way.now (node_at source i) (node_at source n) }
    ensures places { place_count table.new ≡ place_count table.old }
    ensures made { (source : ℕ) (f : ℕ → ℕ → PathExpr) (w : PathExpr)
        → HoldsAll A.fits A.spans source algebra.old f table.old →
        IsItem A.fits A.spans algebra.old w way.now (node_at source i) (node_at source n) →
        Makes A.fits A.spans A.ends A.is_memory A.faults A.made A.stopped algebra.old algebra.new
        (step_operations f w n i j) result
        (λ _. HoldsAll A.fits A.spans source algebra.new
        (with_cell f i j (join_of (f i j) (seq_of w (f n j)))) table.new) }
{
    let Some(out) = table.get(n, j) else {
        return Ok(());
    };
    let path = seq(alloc, algebra, way, out)?;
    let before = table.take(i, j);
    let joined = join_onto(alloc, algebra, before, path)?;
    table.put(i, j, joined)?;
    Ok(())
}

/// A way from place i to place n goes on from n to the places below n.
fn eliminate_cells<A: Algebra>(
    alloc: Global,
    algebra: &mut A,
    table: &mut Table<A::Item>,
    way: &A::Item,
    n: u32,
    i: u32,
) -> Result<(), ReachError<A::Fault>>
    requires within { n ≤ place_count table.old }
    requires above { i < n }
    requires holds { (source : ℕ) × (f : ℕ → ℕ → PathExpr) × (w : PathExpr)
        × HoldsAll A.fits A.spans source algebra.old f table.old
        × IsItem A.fits A.spans algebra.old w way.now (node_at source i) (node_at source n) }
    ensures places { place_count table.new ≡ place_count table.old }
    ensures made { (source : ℕ) (f : ℕ → ℕ → PathExpr) (w : PathExpr)
        → HoldsAll A.fits A.spans source algebra.old f table.old →
        IsItem A.fits A.spans algebra.old w way.now (node_at source i) (node_at source n) →
        Makes A.fits A.spans A.ends A.is_memory A.faults A.made A.stopped algebra.old algebra.new
        (below (step_operations f w n i) n) result
        (λ _. HoldsAll A.fits A.spans source algebra.new (swept f w n i n) table.new) }
{
    let mut from = 0;
    while let Some(j) = table.next_out(n, from) {
        eliminate_cell(alloc, algebra, table, way, n, i, j)?;
        from = j + 1;
    }
    Ok(())
}

/// Place n is eliminated in row i.
fn eliminate_row<A: Algebra>(
    alloc: Global,
    algebra: &mut A,
    table: &mut Table<A::Item>,
    turn: &Option<A::Item>,
    n: u32,
    i: u32,
) -> Result<(), ReachError<A::Fault>>
    requires within { n ≤ place_count table.old }
    requires above { i < n }
    requires holds { (source : ℕ) × (f : ℕ → ℕ → PathExpr)
        × HoldsAll A.fits A.spans source algebra.old f table.old
        × IsItemOrOne A.fits A.spans algebra.old (star_of (f n n)) turn.now (node_at source n) }
    ensures places { place_count table.new ≡ place_count table.old }
    ensures made { (source : ℕ) (f : ℕ → ℕ → PathExpr)
        → HoldsAll A.fits A.spans source algebra.old f table.old →
        IsItemOrOne A.fits A.spans algebra.old (star_of (f n n)) turn.now (node_at source n) →
        Makes A.fits A.spans A.ends A.is_memory A.faults A.made A.stopped algebra.old algebra.new
        (row_operations f n i) result
        (λ _. HoldsAll A.fits A.spans source algebra.new
        (swept f (seq_of (f i n) (star_of (f n n))) n i n) table.new) }
{
    let Some(into) = table.get(i, n) else {
        return Ok(());
    };
    let way = path_with_turns(alloc, algebra, into, turn)?;
    eliminate_cells(alloc, algebra, table, &way, n, i)
}

/// The turns at place n, where there are any.
pub(crate) fn turns<A: Algebra>(
    alloc: Global,
    algebra: &mut A,
    table: &Table<A::Item>,
    n: u32,
) -> Result<Option<A::Item>, ReachError<A::Fault>>
    requires { (source : ℕ) × (f : ℕ → ℕ → PathExpr) × HoldsAll A.fits A.spans source algebra.old f
        table.now }
    ensures made { (source : ℕ) (f : ℕ → ℕ → PathExpr)
        → HoldsAll A.fits A.spans source algebra.old f table.now →
        Makes A.fits A.spans A.ends A.is_memory A.faults A.made A.stopped algebra.old algebra.new
        (star_operation (f n n)) result
        (λ turn. IsItemOrOne A.fits A.spans algebra.new (star_of (f n n)) turn (node_at source n)) }
{
    let Some(cell) = table.get(n, n) else {
        return Ok(None);
    };
    match star(alloc, algebra, cell) {
        Ok(turn) => Ok(Some(turn)),
        Err(error) => Err(error),
    }
}

/// Place n is eliminated. It answers the turns there.
fn eliminate_place<A: Algebra>(
    alloc: Global,
    algebra: &mut A,
    table: &mut Table<A::Item>,
    n: u32,
) -> Result<Option<A::Item>, ReachError<A::Fault>>
    requires within { n ≤ place_count table.old }
    requires holds { (source : ℕ) × (f : ℕ → ℕ → PathExpr)
        × HoldsAll A.fits A.spans source algebra.old f table.old }
    ensures places { place_count table.new ≡ place_count table.old }
    ensures made { (source : ℕ) (f : ℕ → ℕ → PathExpr)
        → HoldsAll A.fits A.spans source algebra.old f table.old →
        Makes A.fits A.spans A.ends A.is_memory A.faults A.made A.stopped algebra.old algebra.new
        (place_operations f n) result
        (λ turn. HoldsAll A.fits A.spans source algebra.new (after_elimination n f) table.new
        × IsItemOrOne A.fits A.spans algebra.new (star_of (f n n)) turn (node_at source n)) }
{
    let turn = turns(alloc, algebra, table, n)?;
    let mut from = 0;
    while let Some(i) = table.next_into(n, from) {
        eliminate_row(alloc, algebra, table, &turn, n, i)?;
        from = i + 1;
    }
    Ok(turn)
}

/// Place n is eliminated, and the turns there are kept at n.
fn eliminate_next<A: Algebra>(
    alloc: Global,
    algebra: &mut A,
    table: &mut Table<A::Item>,
    stars: &mut Table<A::Item>,
    n: u32,
) -> Result<(), ReachError<A::Fault>>
    requires within { n < place_count table.old }
    requires room { n < place_count stars.old }
    requires none { cell stars.old n n ≡ None }
    requires holds { (source : ℕ) × (f : ℕ → ℕ → PathExpr)
        × HoldsAll A.fits A.spans source algebra.old f table.old }
    ensures places { place_count table.new ≡ place_count table.old }
    ensures star_places { place_count stars.new ≡ place_count stars.old }
    ensures made { (source : ℕ) (f : ℕ → ℕ → PathExpr)
        → HoldsAll A.fits A.spans source algebra.old f table.old →
        Makes A.fits A.spans A.ends A.is_memory A.faults A.made A.stopped algebra.old algebra.new
        (place_operations f n) result
        (λ _. HoldsAll A.fits A.spans source algebra.new (after_elimination n f) table.new
        × IsItemOrOne A.fits A.spans algebra.new (star_of (f n n)) (cell stars.new n n)
        (node_at source n)) }
    ensures others { OnOk result ((m : ℕ) → m ≢ n → cell stars.new m m ≡ cell stars.old m m) }
{
    if let Some(turn) = eliminate_place(alloc, algebra, table, n)? {
        stars.put(n, n, turn)?;
    }
    Ok(())
}

/// All places but the source's are eliminated, the last one first. The turns at each are kept.
pub(crate) fn eliminate_all<A: Algebra>(
    alloc: Global,
    algebra: &mut A,
    table: &mut Table<A::Item>,
    stars: &mut Table<A::Item>,
    nodes: u32,
) -> Result<(), ReachError<A::Fault>>
    requires some { 0 < nodes }
    requires places { place_count table.old ≡ nodes }
    requires room { place_count stars.old ≡ nodes }
    requires none { (m : ℕ) → cell stars.old m m ≡ None }
    requires holds { (source : ℕ) × (links : List Link) × HoldsAll A.fits A.spans source algebra.old
        (first_table links source) table.old }
    ensures made { (source : ℕ) (links : List Link)
        → HoldsAll A.fits A.spans source algebra.old (first_table links source) table.old →
        Makes A.fits A.spans A.ends A.is_memory A.faults A.made A.stopped algebra.old algebra.new
        (eliminations nodes links source (nodes - 1)) result
        (λ _. HoldsAll A.fits A.spans source algebra.new (last_table nodes links source) table.new
        × ((m : ℕ) → 0 < m → m < nodes → IsItemOrOne A.fits A.spans algebra.new
        (star_of (last_table nodes links source m m)) (cell stars.new m m) (node_at source m))) }
{
    for count in 0..nodes - 1 {
        eliminate_next(alloc, algebra, table, stars, nodes - 1 - count)?;
    }
    Ok(())
}
