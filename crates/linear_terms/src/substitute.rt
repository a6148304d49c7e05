ghost use Rattle.std.specs.Prelude.{◌≡◌, ◌≤◌, [], ◌∷◌, length, All, Ok, IfOk};
ghost use Rattle.items.specs.Gives.{Gives};
ghost use Rattle.linear_terms.specs.TermError.{cause};
ghost use Rattle.linear_terms.specs.Operations.{add_substituted, product_on, put_part, substituted_monomial, substituted_polynomial, sum_of_polys};
ghost use Rattle.linear_terms.specs.Polynomial.{constant_of};
ghost use Rattle.linear_terms.specs.Replacement.{HasPoly, put_in};
ghost use Rattle.linear_terms.specs.Value.{Valuation, value_of};

use crate::{Col, Mono, Poly, TermError, add, mul, scale};
use std::alloc::Global;
use whole_numbers::sum;

/// Each column replaced by the polynomial at its number: an entry column by one of `at`, an
/// auxiliary by one of `aux`.
pub fn subst(alloc: Global, a: &Poly, at: &[Poly], aux: &[Poly]) -> Result<Poly, TermError>
    requires { All (λ t. All (HasPoly at.now aux.now) t.0) a.now.terms }
    ensures exact { Gives cause (λ p. p) result (substituted_polynomial (put_in at.now aux.now) a.now) }
    ensures value { (numbers : Valuation)
        → IfOk result
        (λ p. value_of numbers p ≡ value_of (λ c. value_of numbers (put_in at.now aux.now c))
        a.now) }
{
    let made = substituted_polynomial(alloc, a, at, aux)?;
    Ok(made)
}

fn substituted_polynomial(
    alloc: Global,
    a: &Poly,
    at: &[Poly],
    aux: &[Poly],
) -> Result<Poly, TermError>
    requires { All (λ t. All (HasPoly at.now aux.now) t.0) a.now.terms }
    ensures { Gives cause (λ p. p) result (substituted_polynomial (put_in at.now aux.now) a.now) }
{
    let mut total = Poly::constant(alloc, 0);
    for term in a.terms.as_slice() {
        total = with_replaced(alloc, total, term, at, aux)?;
    }
    with_constant(total, &a.rest)
}

/// The sum so far with what comes of one term.
fn with_replaced(
    alloc: Global,
    total: Poly,
    term: &(Mono, i128),
    at: &[Poly],
    aux: &[Poly],
) -> Result<Poly, TermError>
    requires { All (HasPoly at.now aux.now) term.now.0 }
    ensures { Gives cause (λ p. p) result
        (add_substituted (put_in at.now aux.now) (term.now ∷ []) total) }
{
    let made = substituted_monomial(alloc, term.0.columns(), term.1, at, aux)?;
    with_poly(alloc, total, made)
}

/// The sum of two polynomials; where the first has no terms, those of the second stay as they are.
fn with_poly(alloc: Global, total: Poly, more: Poly) -> Result<Poly, TermError>
    ensures { Gives cause (λ p. p) result (sum_of_polys total more) }
{
    if total.terms.is_empty() {
        return sum_with_constant(&total.rest, more);
    }
    add(alloc, &total, &more)
}

/// The sum of a constant and a polynomial.
fn sum_with_constant(constant: &i128, more: Poly) -> Result<Poly, TermError>
    ensures { Gives cause (λ p. p) result (sum_of_polys (constant_of constant.now) more) }
{
    let Poly { terms, rest } = more;
    let rest = sum(*constant, rest)?;
    Ok(Poly { terms, rest })
}

/// The polynomial with a number added to its constant.
fn with_constant(total: Poly, number: &i128) -> Result<Poly, TermError>
    ensures { Gives cause (λ p. p) result (put_part [] number.now total) }
{
    let Poly { terms, rest } = total;
    let rest = sum(rest, *number)?;
    Ok(Poly { terms, rest })
}

/// The product of what is put in for the columns, times the coefficient.
fn substituted_monomial(
    alloc: Global,
    columns: &[Col],
    number: i128,
    at: &[Poly],
    aux: &[Poly],
) -> Result<Poly, TermError>
    requires some { 1 ≤ length columns.now }
    requires covered { All (HasPoly at.now aux.now) columns.now }
    ensures { Gives cause (λ p. p) result (substituted_monomial (put_in at.now aux.now) columns.now number) }
{
    let first = put_in(columns[0], at, aux);
    if columns.len() == 1 {
        return scale(alloc, first, number);
    }
    let product = product_on(alloc, first, &columns[1..], at, aux)?;
    scale(alloc, &product, number)
}

/// A polynomial times what is put in for the columns.
fn product_on(
    alloc: Global,
    first: &Poly,
    columns: &[Col],
    at: &[Poly],
    aux: &[Poly],
) -> Result<Poly, TermError>
    requires some { 1 ≤ length columns.now }
    requires covered { All (HasPoly at.now aux.now) columns.now }
    ensures { Gives cause (λ p. p) result
        (product_on (put_in at.now aux.now) first.now columns.now) }
{
    let mut product = mul(alloc, first, put_in(columns[0], at, aux))?;
    for col in &columns[1..] {
        product = mul(alloc, &product, put_in(*col, at, aux))?;
    }
    Ok(product)
}

/// What is put in for a column.
fn put_in<'a>(col: Col, at: &'a [Poly], aux: &'a [Poly]) -> &'a Poly
    requires { HasPoly at.now aux.now col }
    ensures { result.now ≡ put_in at.now aux.now col }
{
    match col {
        Col::At(number) => &at[number as usize],
        Col::Aux(number) => &aux[number as usize],
    }
}
