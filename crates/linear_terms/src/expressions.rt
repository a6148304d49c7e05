ghost use Rattle.std.specs.Prelude.{◌≡◌, ◌≢◌, ◌↔◌, ◌-ℤ◌, ◌≤ℤ◌, pos, map, Ok, IfOk, IfErr};
ghost use Rattle.items.specs.Gives.{Gives};
ghost use Rattle.linear_terms.specs.TermError.{cause};
ghost use Rattle.linear_terms.specs.declared.error.TermError.TheVariants.{Degree};
ghost use Rattle.linear_terms.specs.Operations.{difference_of_polys, sum_of_polys, product_of_polys};
ghost use Rattle.linear_terms.specs.Expressions.{◌⊞◌, ◌⊠◌, whole, negative_of, negation, weighted_sum, sum_from};
ghost use Rattle.linear_terms.specs.Row.{RowHolds};
ghost use Rattle.linear_terms.specs.Value.{Valuation, value_of};
ghost use Rattle.whole_numbers.specs.Dot.{dot};

use crate::{Kind, Poly, Row, TermError, add, mul, scale};
use std::alloc::Global;

/// The first polynomial less the second, which is multiplied by -1 and then added.
#[tactic(auto, using(crate::proofs::Values::difference_of_polys_value))]
pub fn difference(alloc: Global, a: &Poly, b: &Poly) -> Result<Poly, TermError>
    ensures exact { Gives cause (λ p. p) result (difference_of_polys a.now b.now) }
    ensures value { (at : Valuation)
        → IfOk result (λ p. value_of at p ≡ value_of at a.now -ℤ value_of at b.now) }
    ensures no_degree { IfErr result (λ e. e ≢ Degree) }
{
    let turned = scale(alloc, b, -1)?;
    add(alloc, a, &turned)
}

/// The row that holds exactly where the inequality `poly <= 0` does not: `-poly + 1 <= 0`.
pub fn negation(alloc: Global, poly: &Poly) -> Result<Row, TermError>
    ensures exact { Gives cause (λ r. r) result (negation poly.now) }
    ensures opposite { (at : Valuation)
        → IfOk result (λ r. RowHolds at r ↔ (value_of at poly.now ≤ℤ pos 0 → ⊥)) }
    ensures no_degree { IfErr result (λ e. e ≢ Degree) }
{
    let turned = scale(alloc, poly, -1)?;
    let poly = add(alloc, &turned, &Poly::constant(alloc, 1))?;
    Ok(Row {
        poly,
        kind: Kind::AtMost,
    })
}

/// Numbers times polynomials, from the left: each number is made a constant on the left of its
/// product, which is then added to the sum so far. Where one list is longer, its end counts for
/// nothing.
#[tactic(auto, using(crate::proofs::Worth::weighted_value))]
pub fn combination(alloc: Global, numbers: &[i128], polys: &[Poly]) -> Result<Poly, TermError>
    ensures exact { Gives cause (λ p. p) result (weighted_sum numbers.now polys.now) }
    ensures value { (at : Valuation)
        → IfOk result (λ p. value_of at p ≡ dot numbers.now (map (value_of at) polys.now)) }
{
    let total = weighted_sum(alloc, numbers, polys)?;
    Ok(total)
}

fn weighted_sum(alloc: Global, numbers: &[i128], polys: &[Poly]) -> Result<Poly, TermError>
    ensures { Gives cause (λ p. p) result (weighted_sum numbers.now polys.now) }
{
    let mut total = Poly::constant(alloc, 0);
    let mut numbers = numbers;
    let mut polys = polys;
    while let Some((number, more_numbers)) = numbers.split_first()
        && let Some((poly, more_polys)) = polys.split_first()
    {
        total = with_multiple(alloc, &total, *number, poly)?;
        numbers = more_numbers;
        polys = more_polys;
    }
    Ok(total)
}

/// A sum so far and a number times a polynomial.
fn with_multiple(alloc: Global, total: &Poly, number: i128, poly: &Poly) -> Result<Poly, TermError>
    ensures { Gives cause (λ p. p) result (Ok total.now ⊞ whole number ⊠ Ok poly.now) }
{
    let product = mul(alloc, &Poly::constant(alloc, number), poly)?;
    add(alloc, total, &product)
}
