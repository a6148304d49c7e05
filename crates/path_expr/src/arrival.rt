ghost use Rattle.std.specs.Prelude.{◌≡◌, ◌≢◌, ◌<◌, ◌++◌, ℕ, length, IfOk};
ghost use Rattle.path_expr.specs.PathExpr.{PathExpr, Zero, seq_of, join_of, star_of};
ghost use Rattle.path_expr.specs.Elimination.{arrivals, way_at, ways};
ghost use Rattle.path_expr.specs.Operations.{seq_operation, join_operation, arrival_operations, arrivals_operations, below, way_operations};
ghost use Rattle.path_expr.specs.Runs.{Makes};
ghost use Rattle.path_expr.specs.Holds.{IsItem, IsItemOrZero, IsItemOrOne, IsWay, AreWays, HoldsAll, node_at};
ghost use Rattle.path_expr.specs.Table.{cell};

use crate::algebra::Algebra;
use crate::cell::{Cell, ReachError};
use crate::elimination::turns;
use crate::steps::{join_both, path_with_turns, seq};
use crate::table::Table;
use std::alloc::Global;

/// How a place is reached from those below it.
#[derive(Drop)]
struct Approach<'a, I> {
    /// The paths between two places.
    table: &'a Table<I>,
    /// Turns at the place.
    turn: &'a Option<I>,
}

/// A path, then a step, then turns.
fn through_path<A: Algebra>(
    alloc: Global,
    algebra: &mut A,
    path: &A::Item,
    step: &A::Item,
    turn: &Option<A::Item>,
) -> Result<A::Item, ReachError<A::Fault>>
    requires { (w : PathExpr) × (p : PathExpr) × (q : PathExpr) × (from : ℕ) × (at : ℕ) × (to : ℕ)
        × IsItem A.fits A.spans algebra.old w path.now from at
        × IsItem A.fits A.spans algebra.old p step.now at to
        × IsItemOrOne A.fits A.spans algebra.old q turn.now to }
    ensures made { (w p q : PathExpr) (from at to : ℕ)
        → IsItem A.fits A.spans algebra.old w path.now from at →
        IsItem A.fits A.spans algebra.old p step.now at to
        → IsItemOrOne A.fits A.spans algebra.old q turn.now to →
        Makes A.fits A.spans A.ends A.is_memory A.faults A.made A.stopped algebra.old algebra.new
        (seq_operation w p ++ seq_operation (seq_of w p) q) result
        (λ item. IsItem A.fits A.spans algebra.new (seq_of (seq_of w p) q) item from to) }
{
    let up = seq(alloc, algebra, path, step)?;
    path_with_turns(alloc, algebra, &up, turn)
}

/// A way, then a step, then turns.
fn through<A: Algebra>(
    alloc: Global,
    algebra: &mut A,
    way: &Cell<A::Item>,
    step: &A::Item,
    turn: &Option<A::Item>,
) -> Result<Option<A::Item>, ReachError<A::Fault>>
    requires { (w : PathExpr) × (p : PathExpr) × (q : PathExpr) × (from : ℕ) × (at : ℕ) × (to : ℕ)
        × IsWay A.fits A.spans algebra.old w way.now from at
        × IsItem A.fits A.spans algebra.old p step.now at to
        × IsItemOrOne A.fits A.spans algebra.old q turn.now to }
    ensures made { (w p q : PathExpr) (from at to : ℕ)
        → IsWay A.fits A.spans algebra.old w way.now from at →
        IsItem A.fits A.spans algebra.old p step.now at to
        → IsItemOrOne A.fits A.spans algebra.old q turn.now to →
        Makes A.fits A.spans A.ends A.is_memory A.faults A.made A.stopped algebra.old algebra.new
        (seq_operation w p ++ seq_operation (seq_of w p) q) result
        (λ path. IsItemOrZero A.fits A.spans algebra.new (seq_of (seq_of w p) q) path from to) }
{
    match way {
        Cell::Zero => Ok(None),
        Cell::One => match path_with_turns(alloc, algebra, step, turn) {
            Ok(path) => Ok(Some(path)),
            Err(error) => Err(error),
        },
        Cell::Item(way) => match through_path(alloc, algebra, way, step, turn) {
            Ok(path) => Ok(Some(path)),
            Err(error) => Err(error),
        },
    }
}

/// The paths to place n so far, or those by place p.
fn arrive_by<A: Algebra>(
    alloc: Global,
    algebra: &mut A,
    approach: &Approach<A::Item>,
    way: &Cell<A::Item>,
    before: Option<A::Item>,
    p: u32,
    n: u32,
) -> Result<Option<A::Item>, ReachError<A::Fault>>
    requires { (source : ℕ) × (f : ℕ → ℕ → PathExpr) × (w : PathExpr) × (b : PathExpr)
        × HoldsAll A.fits A.spans source algebra.old f approach.now.table.now
        × IsWay A.fits A.spans algebra.old w way.now (node_at source 0) (node_at source p)
        × IsItemOrOne A.fits A.spans algebra.old (star_of (f n n)) approach.now.turn.now
        (node_at source n)
        × IsItemOrZero A.fits A.spans algebra.old b before (node_at source 0) (node_at source n) }
    ensures made { (source : ℕ) (f : ℕ → ℕ → PathExpr) (w b : PathExpr)
        → HoldsAll A.fits A.spans source algebra.old f approach.now.table.now →
        IsWay A.fits A.spans algebra.old w way.now (node_at source 0) (node_at source p) →
        IsItemOrOne A.fits A.spans algebra.old (star_of (f n n)) approach.now.turn.now
        (node_at source n) →
        IsItemOrZero A.fits A.spans algebra.old b before (node_at source 0) (node_at source n) →
        Makes A.fits A.spans A.ends A.is_memory A.faults A.made A.stopped algebra.old algebra.new
        (arrival_operations f n w p b) result
        (λ path. IsItemOrZero A.fits A.spans algebra.new
        (join_of b (seq_of (seq_of w (f p n)) (star_of (f n n)))) path (node_at source 0)
        (node_at source n)) }
{
    let Some(step) = approach.table.get(p, n) else {
        return Ok(before);
    };
    let path = through(alloc, algebra, way, step, approach.turn)?;
    join_both(alloc, algebra, before, path)
}

/// The paths to place n by the places below it.
fn arrive<A: Algebra>(
    alloc: Global,
    algebra: &mut A,
    approach: &Approach<A::Item>,
    found: &[Cell<A::Item>],
    n: u32,
) -> Result<Option<A::Item>, ReachError<A::Fault>>
    requires below { length found.now ≡ n }
    requires holds { (source : ℕ) × (f : ℕ → ℕ → PathExpr)
        × HoldsAll A.fits A.spans source algebra.old f approach.now.table.now
        × AreWays A.fits A.spans source algebra.old (way_at f) found.now
        × IsItemOrOne A.fits A.spans algebra.old (star_of (f n n)) approach.now.turn.now
        (node_at source n) }
    ensures made { (source : ℕ) (f : ℕ → ℕ → PathExpr)
        → HoldsAll A.fits A.spans source algebra.old f approach.now.table.now →
        AreWays A.fits A.spans source algebra.old (way_at f) found.now →
        IsItemOrOne A.fits A.spans algebra.old (star_of (f n n)) approach.now.turn.now
        (node_at source n) →
        Makes A.fits A.spans A.ends A.is_memory A.faults A.made A.stopped algebra.old algebra.new
        (arrivals_operations f n (ways f n) 0 Zero) result
        (λ path. IsItemOrZero A.fits A.spans algebra.new (arrivals f n (ways f n) 0 Zero) path
        (node_at source 0) (node_at source n)) }
{
    let mut total = None;
    let mut from = 0;
    while let Some(p) = approach.table.next_into(n, from) {
        total = arrive_by(alloc, algebra, approach, &found[p as usize], total, p, n)?;
        from = p + 1;
    }
    Ok(total)
}

/// The way to a place that is not the source's.
fn later_way<A: Algebra>(
    alloc: Global,
    algebra: &mut A,
    table: &Table<A::Item>,
    stars: &mut Table<A::Item>,
    found: &[Cell<A::Item>],
    n: u32,
) -> Result<Cell<A::Item>, ReachError<A::Fault>>
    requires later { 0 < n }
    requires below { length found.now ≡ n }
    requires holds { (source : ℕ) × (f : ℕ → ℕ → PathExpr)
        × HoldsAll A.fits A.spans source algebra.old f table.now
        × AreWays A.fits A.spans source algebra.old (way_at f) found.now
        × IsItemOrOne A.fits A.spans algebra.old (star_of (f n n)) (cell stars.old n n)
        (node_at source n) }
    ensures others { (m : ℕ) → m ≢ n → cell stars.new m m ≡ cell stars.old m m }
    ensures made { (source : ℕ) (f : ℕ → ℕ → PathExpr)
        → HoldsAll A.fits A.spans source algebra.old f table.now →
        AreWays A.fits A.spans source algebra.old (way_at f) found.now →
        IsItemOrOne A.fits A.spans algebra.old (star_of (f n n)) (cell stars.old n n)
        (node_at source n) →
        Makes A.fits A.spans A.ends A.is_memory A.faults A.made A.stopped algebra.old algebra.new
        (arrivals_operations f n (ways f n) 0 Zero) result
        (λ way. IsWay A.fits A.spans algebra.new (arrivals f n (ways f n) 0 Zero) way
        (node_at source 0) (node_at source n)) }
{
    let turn = stars.take(n, n);
    let approach = Approach { table, turn: &turn };
    match arrive(alloc, algebra, &approach, found, n) {
        Ok(Some(path)) => Ok(Cell::Item(path)),
        Ok(None) => Ok(Cell::Zero),
        Err(error) => Err(error),
    }
}

/// The way to the source's place.
fn first_way<A: Algebra>(
    alloc: Global,
    algebra: &mut A,
    table: &Table<A::Item>,
) -> Result<Cell<A::Item>, ReachError<A::Fault>>
    requires { (source : ℕ) × (f : ℕ → ℕ → PathExpr) × HoldsAll A.fits A.spans source algebra.old f
        table.now }
    ensures made { (source : ℕ) (f : ℕ → ℕ → PathExpr)
        → HoldsAll A.fits A.spans source algebra.old f table.now →
        Makes A.fits A.spans A.ends A.is_memory A.faults A.made A.stopped algebra.old algebra.new
        (way_operations f 0) result
        (λ way. IsWay A.fits A.spans algebra.new (way_at f 0) way (node_at source 0)
        (node_at source 0)) }
{
    match turns(alloc, algebra, table, 0) {
        Ok(Some(turn)) => Ok(Cell::Item(turn)),
        Ok(None) => Ok(Cell::One),
        Err(error) => Err(error),
    }
}

/// The way to place n.
fn way<A: Algebra>(
    alloc: Global,
    algebra: &mut A,
    table: &Table<A::Item>,
    stars: &mut Table<A::Item>,
    found: &[Cell<A::Item>],
    n: u32,
) -> Result<Cell<A::Item>, ReachError<A::Fault>>
    requires below { length found.now ≡ n }
    requires holds { (source : ℕ) × (f : ℕ → ℕ → PathExpr)
        × HoldsAll A.fits A.spans source algebra.old f table.now
        × AreWays A.fits A.spans source algebra.old (way_at f) found.now
        × (0 < n → IsItemOrOne A.fits A.spans algebra.old (star_of (f n n)) (cell stars.old n n)
        (node_at source n)) }
    ensures others { (m : ℕ) → m ≢ n → cell stars.new m m ≡ cell stars.old m m }
    ensures made { (source : ℕ) (f : ℕ → ℕ → PathExpr)
        → HoldsAll A.fits A.spans source algebra.old f table.now →
        AreWays A.fits A.spans source algebra.old (way_at f) found.now →
        (0 < n → IsItemOrOne A.fits A.spans algebra.old (star_of (f n n)) (cell stars.old n n)
        (node_at source n)) →
        Makes A.fits A.spans A.ends A.is_memory A.faults A.made A.stopped algebra.old algebra.new
        (way_operations f n) result
        (λ way. IsWay A.fits A.spans algebra.new (way_at f n) way (node_at source 0)
        (node_at source n)) }
{
    if n == 0 {
        first_way(alloc, algebra, table)
    } else {
        later_way(alloc, algebra, table, stars, found, n)
    }
}

/// The ways to all places, in their order.
pub(crate) fn find_ways<A: Algebra>(
    alloc: Global,
    algebra: &mut A,
    table: &Table<A::Item>,
    stars: &mut Table<A::Item>,
    nodes: u32,
) -> Result<Vec<Cell<A::Item>>, ReachError<A::Fault>>
    requires { (source : ℕ) × (f : ℕ → ℕ → PathExpr) × HoldsAll A.fits A.spans source algebra.old f
        table.now
        × ((m : ℕ) → 0 < m → m < nodes
        → IsItemOrOne A.fits A.spans algebra.old (star_of (f m m)) (cell stars.old m m)
        (node_at source m)) }
    ensures length { IfOk result (λ found. length found.items ≡ nodes) }
    ensures made { (source : ℕ) (f : ℕ → ℕ → PathExpr)
        → HoldsAll A.fits A.spans source algebra.old f table.now →
        ((m : ℕ) → 0 < m → m < nodes
        → IsItemOrOne A.fits A.spans algebra.old (star_of (f m m)) (cell stars.old m m)
        (node_at source m)) →
        Makes A.fits A.spans A.ends A.is_memory A.faults A.made A.stopped algebra.old algebra.new
        (below (way_operations f) nodes) result
        (λ found. AreWays A.fits A.spans source algebra.new (way_at f) found.items) }
{
    let mut found = Vec::new(alloc);
    for n in 0..nodes {
        let next = way(alloc, algebra, table, stars, found.as_slice(), n)?;
        found.push(next)?;
    }
    Ok(found)
}
