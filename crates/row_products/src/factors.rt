ghost use Rattle.std.specs.Prelude.{◌≡◌, ◌==◌, length, IfOk};
ghost use Rattle.std.specs.List.{list_all, list_any};
ghost use Rattle.std.specs.Ordering.{eq_by_cmp};
ghost use Rattle.linear_terms.specs.Col.{col_cmp};
ghost use Rattle.row_products.specs.Products.{occurs_in, is_factor_by, is_factor, factors};

use items::Items;
use linear_terms::{Col, Kind, Mono, Poly, Row};
use std::alloc::{AllocError, Global};

/// The polynomials of the inequalities of degree 1 that have a column of the monomials.
pub(crate) fn factors(
    alloc: Global,
    monos: &[Mono],
    rows: &[Row],
) -> Result<Items<Poly>, AllocError>
    ensures { IfOk result (λ made. made ≡ factors monos.now rows.now) }
{
    let mut made = Items::new(alloc);
    for row in rows {
        if is_factor(monos, row) {
            made.push(row.poly.clone()?)?;
        }
    }
    Ok(made)
}

fn is_factor(monos: &[Mono], row: &Row) -> bool
    ensures { result ≡ is_factor monos.now row.now }
{
    match row.kind {
        Kind::AtMost => is_linear(row.poly.terms()) && has_column_in(monos, row.poly.terms()),
        Kind::Equal => false,
    }
}

fn is_linear(terms: &[(Mono, i128)]) -> bool
    ensures { result ≡ list_all (λ t. length t.0 == 1) terms.now }
{
    terms.iter().all(|(mono, _)| mono.columns().len() == 1)
}

/// Whether one of the terms has a column of the monomials.
fn has_column_in(monos: &[Mono], terms: &[(Mono, i128)]) -> bool
    ensures { result ≡ list_any (λ t. list_any (occurs_in monos.now) t.0) terms.now }
{
    terms
        .iter()
        .any(|(mono, _)| has_one_in(monos, mono.columns()))
}

fn has_one_in(monos: &[Mono], columns: &[Col]) -> bool
    ensures { result ≡ list_any (occurs_in monos.now) columns.now }
{
    columns.iter().any(|col| occurs_in(monos, *col))
}

fn occurs_in(monos: &[Mono], col: Col) -> bool
    ensures { result ≡ occurs_in monos.now col }
{
    monos.iter().any(|mono| is_column_of(col, mono.columns()))
}

fn is_column_of(col: Col, columns: &[Col]) -> bool
    ensures { result ≡ list_any (eq_by_cmp col_cmp col) columns.now }
{
    columns.iter().any(|other| is_same(col, *other))
}

pub(crate) fn is_same(col: Col, other: Col) -> bool
    ensures { result ≡ eq_by_cmp col_cmp col other }
{
    col == other
}
