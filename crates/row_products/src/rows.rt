ghost use Rattle.std.specs.Prelude.{◌≡◌, Result, Ok, IfOk};
ghost use Rattle.std.specs.List.{list_any};
ghost use Rattle.std.specs.Ordering.{eq_by_cmp};
ghost use Rattle.items.specs.Gives.{Gives};
ghost use Rattle.linear_terms.specs.TermError.{cause};
ghost use Rattle.linear_terms.specs.declared.error.TermError.{TermError};
ghost use Rattle.linear_terms.specs.declared.row.Normal.{Normal};
ghost use Rattle.linear_terms.specs.declared.row.Kind.TheVariants.{AtMost};
ghost use Rattle.linear_terms.specs.Mono.{mono_cmp};
ghost use Rattle.linear_terms.specs.Row.{normal_form};
ghost use Rattle.row_products.specs.Products.{has_one_of, telling, form_of, row_of, below_square, above_square, minus_product, with_one_of, product_row, never};

use linear_terms::{
    Col, Kind, Mono, Normal, Poly, Row, TermError, add, difference, mul, normal, scale,
};
use std::alloc::{AllocError, Global};

/// The row `x - x*x <= 0` of a column.
pub(crate) fn below_square(alloc: Global, x: Col) -> Result<Option<Row>, AllocError>
    ensures { IfOk result (λ row. row ≡ row_of (below_square x)) }
{
    telling(alloc, normal_below_square(alloc, x))
}

fn normal_below_square(alloc: Global, x: Col) -> Result<Normal, TermError>
    ensures { Gives cause (λ n. n) result (form_of (below_square x)) }
{
    let x = Poly::column(alloc, x)?;
    let square = mul(alloc, &x, &x)?;
    normal_at_most(alloc, difference(alloc, &x, &square)?)
}

/// The row `-x*x - x <= 0` of a column.
pub(crate) fn above_square(alloc: Global, x: Col) -> Result<Option<Row>, AllocError>
    ensures { IfOk result (λ row. row ≡ row_of (above_square x)) }
{
    telling(alloc, normal_above_square(alloc, x))
}

fn normal_above_square(alloc: Global, x: Col) -> Result<Normal, TermError>
    ensures { Gives cause (λ n. n) result (form_of (above_square x)) }
{
    let x = Poly::column(alloc, x)?;
    let square = mul(alloc, &x, &x)?;
    let sum = add(alloc, &square, &x)?;
    normal_at_most(alloc, scale(alloc, &sum, -1)?)
}

/// The row of a product, if it has one of the monomials.
pub(crate) fn product_row(
    alloc: Global,
    monos: &[Mono],
    p: &Poly,
    q: &Poly,
) -> Result<Option<Row>, AllocError>
    ensures { IfOk result (λ row. row ≡ product_row monos.now p.now q.now) }
{
    let row = telling(alloc, normal_product(alloc, p, q))?;
    Ok(with_one_of(monos, row))
}

fn normal_product(alloc: Global, p: &Poly, q: &Poly) -> Result<Normal, TermError>
    ensures { Gives cause (λ n. n) result (form_of (minus_product p.now q.now)) }
{
    let product = mul(alloc, p, q)?;
    normal_at_most(alloc, scale(alloc, &product, -1)?)
}

/// The normal form of the row that says that a polynomial is not positive.
fn normal_at_most(alloc: Global, poly: Poly) -> Result<Normal, TermError>
    ensures { Gives cause (λ n. n) result (normal_form record { poly = poly; kind = AtMost }) }
{
    let row = Row {
        poly,
        kind: Kind::AtMost,
    };
    normal(alloc, &row)
}

/// The row that a normal form is; none where a step of it was lost, or where it is always true.
fn telling(alloc: Global, form: Result<Normal, TermError>) -> Result<Option<Row>, AllocError>
    ensures { (stated : Result Normal TermError) → Gives cause (λ n. n) form stated
        → IfOk result (λ row. row ≡ telling stated) }
{
    match form {
        Ok(form) => Ok(row_in(alloc, form)),
        Err(TermError::Memory) => Err(AllocError),
        Err(_lost) => Ok(None),
    }
}

fn row_in(alloc: Global, form: Normal) -> Option<Row>
    ensures { result ≡ telling (Ok form) }
{
    match form {
        Normal::Constant(true) => None,
        Normal::Constant(false) => Some(never(alloc)),
        Normal::Kept(row) => Some(row),
    }
}

/// The row `1 <= 0`, which no numbers make true.
fn never(alloc: Global) -> Row
    ensures { result ≡ never }
{
    Row {
        poly: Poly::constant(alloc, 1),
        kind: Kind::AtMost,
    }
}

/// The row, if it has one of the monomials.
fn with_one_of(monos: &[Mono], row: Option<Row>) -> Option<Row>
    ensures { result ≡ with_one_of monos.now row }
{
    match row {
        Some(row) => {
            if has_one_of(monos, &row.poly) {
                Some(row)
            } else {
                None
            }
        }
        None => None,
    }
}

fn has_one_of(monos: &[Mono], poly: &Poly) -> bool
    ensures { result ≡ has_one_of monos.now poly.now }
{
    poly.terms().iter().any(|(mono, _)| is_among(mono, monos))
}

fn is_among(mono: &Mono, monos: &[Mono]) -> bool
    ensures { result ≡ list_any (eq_by_cmp mono_cmp mono.now) monos.now }
{
    monos.iter().any(|other| mono == other)
}
