ghost use Rattle.std.specs.Prelude.{◌≡◌, ◌*ℤ◌, Ok, IfOk, IfErr, OnOk};
ghost use Rattle.items.specs.Gives.{Gives, FailsBy};
ghost use Rattle.linear_terms.specs.TermError.{cause};
ghost use Rattle.linear_terms.specs.Operations.{parts, add_row, product_of_polys};
ghost use Rattle.linear_terms.specs.Value.{Valuation, value_of};

use crate::total::Total;
use crate::{Col, Poly, TermError};
use std::alloc::Global;

/// The product of two polynomials.
#[tactic(auto, using(crate::proofs::Values::product_of_polys_value))]
pub fn mul(alloc: Global, a: &Poly, b: &Poly) -> Result<Poly, TermError>
    ensures exact { Gives cause (λ p. p) result (product_of_polys a.now b.now) }
    ensures value { (at : Valuation)
        → IfOk result (λ p. value_of at p ≡ value_of at a.now *ℤ value_of at b.now) }
{
    let mut total = Total::new(alloc);
    for (mono, number) in a.terms.as_slice() {
        add_row(&mut total, mono.columns(), number, b)?;
    }
    add_row(&mut total, &[], &a.rest, b)?;
    Ok(total.into_poly(alloc)?)
}

/// Adds the products of one term and each of a polynomial.
fn add_row(total: &mut Total, columns: &[Col], number: &i128, b: &Poly) -> Result<(), TermError>
    ensures ok { OnOk result (add_row columns.now number.now (parts b.now) total.old
        ≡ Ok total.new) }
    ensures err { IfErr result
        (λ e. FailsBy (cause e) (add_row columns.now number.now (parts b.now) total.old)) }
{
    for (mono, other) in b.terms.as_slice() {
        total.add_product(columns, number, mono.columns(), other)?;
    }
    total.add_product(columns, number, &[], &b.rest)
}
