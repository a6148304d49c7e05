ghost use Rattle.std.specs.Prelude.{◌≡◌, ℕ, [], ◌∷◌};
ghost use Rattle.path_expr.specs.PathExpr.{PathExpr, Edge, seq_of, join_of, star_of};
ghost use Rattle.path_expr.specs.Operations.{seq_operation, join_operation, star_operation};
ghost use Rattle.path_expr.specs.Runs.{Makes};
ghost use Rattle.path_expr.specs.Holds.{IsItem, IsItemOrZero, IsItemOrOne};

use crate::algebra::Algebra;
use crate::cell::ReachError;
use std::alloc::Global;

/// One operation: the item of an edge.
pub(crate) fn edge<A: Algebra>(
    alloc: Global,
    algebra: &mut A,
    number: u32,
) -> Result<A::Item, ReachError<A::Fault>>
    requires { (from : ℕ) × (to : ℕ) × A.ends algebra.old number from to }
    ensures made { (from to : ℕ) → A.ends algebra.old number from to →
        Makes A.fits A.spans A.ends A.is_memory A.faults A.made A.stopped algebra.old algebra.new
        (Edge number ∷ []) result
        (λ item. IsItem A.fits A.spans algebra.new (Edge number) item from to) }
{
    match algebra.edge(alloc, number) {
        Ok(item) => Ok(item),
        Err(fault) => Err(ReachError::Algebra(fault)),
    }
}

/// One operation: a path and then another.
pub(crate) fn seq<A: Algebra>(
    alloc: Global,
    algebra: &mut A,
    first: &A::Item,
    second: &A::Item,
) -> Result<A::Item, ReachError<A::Fault>>
    requires { (from : ℕ) × (through : ℕ) × (to : ℕ) × A.spans algebra.old first.now from through
        × A.spans algebra.old second.now through to }
    ensures made { (p q : PathExpr) (from through to : ℕ)
        → IsItem A.fits A.spans algebra.old p first.now from through →
        IsItem A.fits A.spans algebra.old q second.now through to →
        Makes A.fits A.spans A.ends A.is_memory A.faults A.made A.stopped algebra.old algebra.new
        (seq_operation p q) result
        (λ item. IsItem A.fits A.spans algebra.new (seq_of p q) item from to) }
{
    match algebra.seq(alloc, first, second) {
        Ok(item) => Ok(item),
        Err(fault) => Err(ReachError::Algebra(fault)),
    }
}

/// One operation: any number of turns.
pub(crate) fn star<A: Algebra>(
    alloc: Global,
    algebra: &mut A,
    turn: &A::Item,
) -> Result<A::Item, ReachError<A::Fault>>
    requires { (node : ℕ) × A.spans algebra.old turn.now node node }
    ensures made { (p : PathExpr) (node : ℕ)
        → IsItem A.fits A.spans algebra.old p turn.now node node →
        Makes A.fits A.spans A.ends A.is_memory A.faults A.made A.stopped algebra.old algebra.new
        (star_operation p) result
        (λ item. IsItem A.fits A.spans algebra.new (star_of p) item node node) }
{
    match algebra.star(alloc, turn) {
        Ok(item) => Ok(item),
        Err(fault) => Err(ReachError::Algebra(fault)),
    }
}

/// Another item of the same path, which is no operation.
pub(crate) fn copy<A: Algebra>(
    alloc: Global,
    algebra: &mut A,
    item: &A::Item,
) -> Result<A::Item, ReachError<A::Fault>>
    ensures made { (p : PathExpr) (from to : ℕ)
        → IsItem A.fits A.spans algebra.old p item.now from to →
        Makes A.fits A.spans A.ends A.is_memory A.faults A.made A.stopped algebra.old algebra.new
        [] result (λ copy. IsItem A.fits A.spans algebra.new p copy from to) }
{
    match algebra.copy(alloc, item) {
        Ok(copy) => Ok(copy),
        Err(fault) => Err(ReachError::Algebra(fault)),
    }
}

/// A path, or either of it and one that was there before.
pub(crate) fn join_onto<A: Algebra>(
    alloc: Global,
    algebra: &mut A,
    before: Option<A::Item>,
    path: A::Item,
) -> Result<A::Item, ReachError<A::Fault>>
    requires { (p : PathExpr) × (q : PathExpr) × (from : ℕ) × (to : ℕ)
        × IsItemOrZero A.fits A.spans algebra.old p before from to
        × IsItem A.fits A.spans algebra.old q path from to }
    ensures made { (p q : PathExpr) (from to : ℕ)
        → IsItemOrZero A.fits A.spans algebra.old p before from to →
        IsItem A.fits A.spans algebra.old q path from to →
        Makes A.fits A.spans A.ends A.is_memory A.faults A.made A.stopped algebra.old algebra.new
        (join_operation p q) result
        (λ item. IsItem A.fits A.spans algebra.new (join_of p q) item from to) }
{
    let Some(before) = before else {
        return Ok(path);
    };
    match algebra.join(alloc, &before, &path) {
        Ok(item) => Ok(item),
        Err(fault) => Err(ReachError::Algebra(fault)),
    }
}

/// Either of two paths, where each may be missing.
pub(crate) fn join_both<A: Algebra>(
    alloc: Global,
    algebra: &mut A,
    before: Option<A::Item>,
    path: Option<A::Item>,
) -> Result<Option<A::Item>, ReachError<A::Fault>>
    requires { (p : PathExpr) × (q : PathExpr) × (from : ℕ) × (to : ℕ)
        × IsItemOrZero A.fits A.spans algebra.old p before from to
        × IsItemOrZero A.fits A.spans algebra.old q path from to }
    ensures made { (p q : PathExpr) (from to : ℕ)
        → IsItemOrZero A.fits A.spans algebra.old p before from to →
        IsItemOrZero A.fits A.spans algebra.old q path from to →
        Makes A.fits A.spans A.ends A.is_memory A.faults A.made A.stopped algebra.old algebra.new
        (join_operation p q) result
        (λ joined. IsItemOrZero A.fits A.spans algebra.new (join_of p q) joined from to) }
{
    let Some(path) = path else {
        return Ok(before);
    };
    match join_onto(alloc, algebra, before, path) {
        Ok(joined) => Ok(Some(joined)),
        Err(error) => Err(error),
    }
}

/// A path, and turns behind it where there are any.
pub(crate) fn path_with_turns<A: Algebra>(
    alloc: Global,
    algebra: &mut A,
    path: &A::Item,
    turn: &Option<A::Item>,
) -> Result<A::Item, ReachError<A::Fault>>
    requires { (p : PathExpr) × (q : PathExpr) × (from : ℕ) × (to : ℕ)
        × IsItem A.fits A.spans algebra.old p path.now from to
        × IsItemOrOne A.fits A.spans algebra.old q turn.now to }
    ensures made { (p q : PathExpr) (from to : ℕ)
        → IsItem A.fits A.spans algebra.old p path.now from to →
        IsItemOrOne A.fits A.spans algebra.old q turn.now to →
        Makes A.fits A.spans A.ends A.is_memory A.faults A.made A.stopped algebra.old algebra.new
        (seq_operation p q) result
        (λ item. IsItem A.fits A.spans algebra.new (seq_of p q) item from to) }
{
    match turn {
        Some(turn) => seq(alloc, algebra, path, turn),
        None => copy(alloc, algebra, path),
    }
}
