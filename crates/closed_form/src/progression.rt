ghost use Rattle.std.specs.Prelude.{◌↔◌, pos, Ok, IfOk};
ghost use Rattle.items.specs.Gives.{Gives};
ghost use Rattle.linear_terms.specs.TermError.{cause};
ghost use Rattle.linear_terms.specs.Expressions.{◌⊠◌, ◌⊟◌, whole};
ghost use Rattle.linear_terms.specs.Row.{RowHolds};
ghost use Rattle.linear_terms.specs.Value.{Valuation, value_of};
ghost use Rattle.closed_form.specs.ClosedRow.{sum_poly, sum_row};
ghost use Rattle.closed_form.specs.Progressions.{Climb, IsClimb, IsSumBound, ReadsClimb};

use crate::products::{less_product, pairs};
use linear_terms::{Col, Kind, Poly, Row, TermError, difference, mul};
use std::alloc::Global;

/// The row `2*change - 2k*s - e*k*(k-1) - 2c*k <= 0`, or the first step of making it that leaves
/// 128 bits or passes degree 4: products bind closer than differences, and both are made from the
/// left.
///
/// Where a number changes by `change` in `k` turns, in each by at most a slope and `c`, and the
/// slope is `s` at the start and grows by `e` in each turn, the row holds. Source: the sum of an
/// arithmetic progression.
pub fn sum_row(
    alloc: Global,
    change: &Poly,
    s: &Poly,
    e: i128,
    c: i128,
    k: Col,
) -> Result<Row, TermError>
    ensures exact { Gives cause (λ r. r) result (sum_row change.now s.now e c k) }
    ensures value { (at : Valuation) → IfOk result (λ r. RowHolds at r ↔
        IsSumBound (value_of at change.now) (value_of at s.now) e c (at k)) }
    ensures holds { (at : Valuation) (climb : Climb) → IsClimb climb →
        ReadsClimb at climb change.now s.now e c k → IfOk result (RowHolds at) }
{
    let k = Poly::column(alloc, k)?;
    let poly = sum_poly(alloc, change, s, e, c, &k)?;
    Ok(Row {
        poly,
        kind: Kind::AtMost,
    })
}

/// `2*change - 2k*s - e*k*(k-1) - 2c*k`
fn sum_poly(
    alloc: Global,
    change: &Poly,
    s: &Poly,
    e: i128,
    c: i128,
    k: &Poly,
) -> Result<Poly, TermError>
    ensures { Gives cause (λ p. p) result (sum_poly (Ok change.now) (Ok s.now) e c (Ok k.now)) }
{
    let start = less_start(alloc, change, s, k)?;
    let grown = less_growth(alloc, &start, e, k)?;
    less_constant(alloc, &grown, c, k)
}

/// `2*change - 2k*s`
fn less_start(alloc: Global, change: &Poly, s: &Poly, k: &Poly) -> Result<Poly, TermError>
    ensures { Gives cause (λ p. p) result
        (whole (pos 2) ⊠ Ok change.now ⊟ whole (pos 2) ⊠ Ok k.now ⊠ Ok s.now) }
{
    let two = Poly::constant(alloc, 2);
    let doubled = mul(alloc, &two, change)?;
    less_product(alloc, &doubled, &two, k, s)
}

/// `from - e*k*(k-1)`
fn less_growth(alloc: Global, from: &Poly, e: i128, k: &Poly) -> Result<Poly, TermError>
    ensures { Gives cause (λ p. p) result
        (Ok from.now ⊟ whole e ⊠ Ok k.now ⊠ (Ok k.now ⊟ whole (pos 1))) }
{
    let growth = pairs(alloc, e, k)?;
    difference(alloc, from, &growth)
}

/// `from - 2c*k`
fn less_constant(alloc: Global, from: &Poly, c: i128, k: &Poly) -> Result<Poly, TermError>
    ensures { Gives cause (λ p. p) result (Ok from.now ⊟ whole (pos 2) ⊠ whole c ⊠ Ok k.now) }
{
    let two = Poly::constant(alloc, 2);
    let constant = Poly::constant(alloc, c);
    less_product(alloc, from, &two, &constant, k)
}
