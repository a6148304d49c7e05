ghost use Rattle.std.specs.Prelude.{◌≡◌, ◌≤◌, [], ◌∷◌, not, map, length, slice_index, Ok, IfOk, IfErr, OnOk, IsTrue};
ghost use Rattle.std.specs.List.{filter, list_all, list_any};
ghost use Rattle.items.specs.Gives.{FailsBy, Gives};
ghost use Rattle.linear_terms.specs.TermError.{cause};
ghost use Rattle.linear_terms.specs.Operations.{add_substituted, product_in, product_on, product_of_polys, substituted_monomial, substituted_polynomial};
ghost use Rattle.linear_terms.specs.Auxiliaries.{has_auxiliary, occurs, without, put_for, is_numbered, renumbered_column, renumbered_polynomial, KeepsOrder};
ghost use Rattle.linear_terms.specs.Value.{Valuation, value_of};

use crate::total::Total;
use crate::{Col, Mono, Poly, TermError, mul, scale};
use items::Items;
use std::alloc::{AllocError, Global};

/// An auxiliary replaced by a polynomial; the other columns stand for themselves.
pub fn subst_aux(alloc: Global, a: &Poly, aux: u32, by: &Poly) -> Result<Poly, TermError>
    ensures exact { Gives cause (λ p. p) result (substituted_polynomial (put_for aux by.now) a.now) }
    ensures value { (numbers : Valuation)
        → IfOk result
        (λ p. value_of numbers p ≡ value_of (λ c. value_of numbers (put_for aux by.now c)) a.now) }
{
    let made = substituted_polynomial(alloc, a, aux, by)?;
    Ok(made)
}

fn substituted_polynomial(alloc: Global, a: &Poly, aux: u32, by: &Poly) -> Result<Poly, TermError>
    ensures { Gives cause (λ p. p) result (substituted_polynomial (put_for aux by.now) a.now) }
{
    let mut total = Total::new(alloc);
    for term in a.terms.as_slice() {
        add_replaced(alloc, &mut total, term, aux, by)?;
    }
    total.with_constant(alloc, &a.rest)
}

/// Adds what comes of one term.
fn add_replaced(
    alloc: Global,
    total: &mut Total,
    term: &(Mono, i128),
    aux: u32,
    by: &Poly,
) -> Result<(), TermError>
    ensures ok { OnOk result (add_substituted (put_for aux by.now) (term.now ∷ []) total.old
        ≡ Ok total.new) }
    ensures err { IfErr result
        (λ e. FailsBy (cause e) (add_substituted (put_for aux by.now) (term.now ∷ []) total.old)) }
{
    let made = substituted_monomial(alloc, term.0.columns(), term.1, aux, by)?;
    total.add(&made)
}

/// The product of what stands for the columns, times the coefficient.
fn substituted_monomial(
    alloc: Global,
    columns: &[Col],
    number: i128,
    aux: u32,
    by: &Poly,
) -> Result<Poly, TermError>
    requires { 1 ≤ length columns.now }
    ensures { Gives cause (λ p. p) result (substituted_monomial (put_for aux by.now) columns.now number) }
{
    let product = product_in(alloc, columns, aux, by)?;
    scale(alloc, &product, number)
}

/// The product of what stands for the columns.
fn product_in(alloc: Global, columns: &[Col], aux: u32, by: &Poly) -> Result<Poly, TermError>
    requires { 1 ≤ length columns.now }
    ensures { Gives cause (λ p. p) result (product_in (put_for aux by.now) columns.now) }
{
    let first = put_for(alloc, columns[0], aux, by)?;
    product_on(alloc, first, &columns[1..], aux, by)
}

/// A polynomial times what stands for the columns.
fn product_on(
    alloc: Global,
    first: Poly,
    columns: &[Col],
    aux: u32,
    by: &Poly,
) -> Result<Poly, TermError>
    ensures { Gives cause (λ p. p) result (product_on (put_for aux by.now) first columns.now) }
{
    let mut product = first;
    for col in columns {
        product = times_column(alloc, &product, *col, aux, by)?;
    }
    Ok(product)
}

/// A product times what stands for one more column.
fn times_column(
    alloc: Global,
    product: &Poly,
    col: Col,
    aux: u32,
    by: &Poly,
) -> Result<Poly, TermError>
    ensures { Gives cause (λ p. p) result (product_of_polys product.now (put_for aux by.now col)) }
{
    if col.is_auxiliary(aux) {
        return mul(alloc, product, by);
    }
    let column = Poly::column(alloc, col)?;
    mul(alloc, product, &column)
}

fn put_for(alloc: Global, col: Col, aux: u32, by: &Poly) -> Result<Poly, TermError>
    ensures { Gives cause (λ p. p) result (Ok (put_for aux by.now col)) }
{
    if col.is_auxiliary(aux) {
        Ok(by.clone()?)
    } else {
        Poly::column(alloc, col)
    }
}

/// The polynomial without the terms in which the auxiliary occurs.
pub fn without(alloc: Global, a: &Poly, aux: u32) -> Result<Poly, AllocError>
    ensures { IfOk result (λ p. p ≡ without aux a.now) }
{
    let terms = terms_without(alloc, a.terms.as_slice(), aux)?;
    Ok(Poly {
        terms,
        rest: a.rest,
    })
}

fn terms_without(
    alloc: Global,
    terms: &[(Mono, i128)],
    aux: u32,
) -> Result<Items<(Mono, i128)>, AllocError>
    ensures { IfOk result (λ made. made ≡ filter (λ t. not (has_auxiliary aux t.0)) terms.now) }
{
    let mut made = Items::new(alloc);
    for (mono, number) in terms {
        if !mono.has_auxiliary(aux) {
            made.push((*mono, *number))?;
        }
    }
    Ok(made)
}

/// The auxiliaries' numbers replaced by those at their places in a list, which keep their order.
pub fn renumbered_poly(alloc: Global, a: &Poly, numbers: &[u32]) -> Result<Poly, AllocError>
    requires numbered { IsTrue
        (list_all (λ t. list_all (is_numbered (length numbers.now)) t.0) a.now.terms) }
    requires order { KeepsOrder (slice_index numbers.now) (λ n. occurs n a.now) }
    ensures { IfOk result (λ p. p ≡ renumbered_polynomial (slice_index numbers.now) a.now) }
{
    let terms = terms_renumbered(alloc, a.terms.as_slice(), numbers)?;
    Ok(Poly {
        terms,
        rest: a.rest,
    })
}

fn terms_renumbered(
    alloc: Global,
    terms: &[(Mono, i128)],
    numbers: &[u32],
) -> Result<Items<(Mono, i128)>, AllocError>
    requires numbered { IsTrue
        (list_all (λ t. list_all (is_numbered (length numbers.now)) t.0) terms.now) }
    requires order { KeepsOrder (slice_index numbers.now)
        (λ n. list_any (λ t. has_auxiliary n t.0) terms.now) }
    ensures { IfOk result
        (λ made. made ≡ map (λ t. (map (renumbered_column (slice_index numbers.now)) t.0, t.1))
        terms.now) }
{
    let mut made = Items::new(alloc);
    for (mono, number) in terms {
        made.push((mono.with_numbers(numbers), *number))?;
    }
    Ok(made)
}
