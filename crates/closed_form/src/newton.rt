ghost use Rattle.std.specs.Prelude.{◌↔◌, ℕ, pos, Ok, IfOk};
ghost use Rattle.items.specs.Gives.{Gives};
ghost use Rattle.linear_terms.specs.TermError.{cause};
ghost use Rattle.linear_terms.specs.Row.{RowHolds};
ghost use Rattle.linear_terms.specs.Value.{Valuation, value_of};
ghost use Rattle.linear_terms.specs.Expressions.{◌⊠◌, ◌⊟◌, whole};
ghost use Rattle.closed_form.specs.ClosedRow.{closed_poly, closed_row};
ghost use Rattle.closed_form.specs.Differences.{IsForwardSum, Sequence, third_difference, IsConstant, Run, IsRun, run_of, ReadsAs};

use crate::products::{less_product, pairs, times_less};
use linear_terms::{Col, Kind, Poly, Row, TermError, difference, mul};
use std::alloc::Global;

/// The row `6*after - 6*before - 6k*d1 - 3k(k-1)*d2 - k(k-1)(k-2)*d3 = 0`, or the first step of
/// making it that leaves 128 bits or passes degree 4: products bind closer than differences, and
/// both are made from the left.
///
/// Where `before`, `d1`, `d2` and `d3` are a sequence's number and its differences at the start,
/// the third of them constant, and `after` is its number after `k` steps, the row holds. Source:
/// Newton's forward difference formula.
pub fn row(
    alloc: Global,
    after: &Poly,
    before: &Poly,
    d1: &Poly,
    d2: &Poly,
    d3: &Poly,
    k: Col,
) -> Result<Row, TermError>
    ensures exact { Gives cause (λ r. r) result
        (closed_row after.now before.now d1.now d2.now d3.now k) }
    ensures value { (at : Valuation) → IfOk result (λ r. RowHolds at r ↔
        IsForwardSum (value_of at after.now) (value_of at before.now)
        (value_of at d1.now) (value_of at d2.now) (value_of at d3.now) (at k)) }
    ensures holds { (at : Valuation) (u : Sequence) (n : ℕ) → IsConstant (third_difference u) →
        ReadsAs at (run_of u n) after.now before.now d1.now d2.now d3.now k
        → IfOk result (RowHolds at) }
    ensures holds_on_runs { (at : Valuation) (run : Run) → IsRun run →
        ReadsAs at run after.now before.now d1.now d2.now d3.now k → IfOk result (RowHolds at) }
{
    let k = Poly::column(alloc, k)?;
    let poly = closed_poly(alloc, after, before, d1, d2, d3, &k)?;
    Ok(Row {
        poly,
        kind: Kind::Equal,
    })
}

/// `6*after - 6*before - 6k*d1 - 3k(k-1)*d2 - k(k-1)(k-2)*d3`
fn closed_poly(
    alloc: Global,
    after: &Poly,
    before: &Poly,
    d1: &Poly,
    d2: &Poly,
    d3: &Poly,
    k: &Poly,
) -> Result<Poly, TermError>
    ensures { Gives cause (λ p. p) result
        (closed_poly (Ok after.now) (Ok before.now) (Ok d1.now) (Ok d2.now) (Ok d3.now)
        (Ok k.now)) }
{
    let linear = linear(alloc, after, before, d1, k)?;
    let quadratic = less_second(alloc, &linear, k, d2)?;
    less_third(alloc, &quadratic, k, d3)
}

/// `6*after - 6*before - 6k*d1`
fn linear(
    alloc: Global,
    after: &Poly,
    before: &Poly,
    d1: &Poly,
    k: &Poly,
) -> Result<Poly, TermError>
    ensures { Gives cause (λ p. p) result
        (whole (pos 6) ⊠ Ok after.now ⊟ whole (pos 6) ⊠ Ok before.now
        ⊟ whole (pos 6) ⊠ Ok k.now ⊠ Ok d1.now) }
{
    let change = change(alloc, after, before)?;
    less_first(alloc, &change, k, d1)
}

/// `6*after - 6*before`
fn change(alloc: Global, after: &Poly, before: &Poly) -> Result<Poly, TermError>
    ensures { Gives cause (λ p. p) result
        (whole (pos 6) ⊠ Ok after.now ⊟ whole (pos 6) ⊠ Ok before.now) }
{
    let left = sixfold(alloc, after)?;
    let right = sixfold(alloc, before)?;
    difference(alloc, &left, &right)
}

/// `6*number`
fn sixfold(alloc: Global, number: &Poly) -> Result<Poly, TermError>
    ensures { Gives cause (λ p. p) result (whole (pos 6) ⊠ Ok number.now) }
{
    let six = Poly::constant(alloc, 6);
    mul(alloc, &six, number)
}

/// `from - 6k*d1`
fn less_first(alloc: Global, from: &Poly, k: &Poly, d1: &Poly) -> Result<Poly, TermError>
    ensures { Gives cause (λ p. p) result (Ok from.now ⊟ whole (pos 6) ⊠ Ok k.now ⊠ Ok d1.now) }
{
    let six = Poly::constant(alloc, 6);
    less_product(alloc, from, &six, k, d1)
}

/// `from - 3k(k-1)*d2`
fn less_second(alloc: Global, from: &Poly, k: &Poly, d2: &Poly) -> Result<Poly, TermError>
    ensures { Gives cause (λ p. p) result
        (Ok from.now ⊟ whole (pos 3) ⊠ Ok k.now ⊠ (Ok k.now ⊟ whole (pos 1)) ⊠ Ok d2.now) }
{
    let factor = pairs(alloc, 3, k)?;
    let term = mul(alloc, &factor, d2)?;
    difference(alloc, from, &term)
}

/// `from - k(k-1)(k-2)*d3`
fn less_third(alloc: Global, from: &Poly, k: &Poly, d3: &Poly) -> Result<Poly, TermError>
    ensures { Gives cause (λ p. p) result
        (Ok from.now ⊟ Ok k.now ⊠ (Ok k.now ⊟ whole (pos 1)) ⊠ (Ok k.now ⊟ whole (pos 2)) ⊠ Ok
        d3.now) }
{
    let factor = triples(alloc, k)?;
    let term = mul(alloc, &factor, d3)?;
    difference(alloc, from, &term)
}

/// `k(k-1)(k-2)`
fn triples(alloc: Global, k: &Poly) -> Result<Poly, TermError>
    ensures { Gives cause (λ p. p) result
        (Ok k.now ⊠ (Ok k.now ⊟ whole (pos 1)) ⊠ (Ok k.now ⊟ whole (pos 2))) }
{
    let pairs = times_less(alloc, k, k, 1)?;
    times_less(alloc, &pairs, k, 2)
}
