ghost use Rattle.std.specs.Prelude.{◌≡◌, [], ◌∷◌, map, IfOk, OnOk};
ghost use Rattle.std.specs.List.{filter, flat_map};
ghost use Rattle.row_products.specs.Limits.{most_products};
ghost use Rattle.row_products.specs.Products.{is_high, high_monos, square_rows, product_row, product_rows, factors, offers_of, products};
ghost use Rattle.row_products.specs.Offers.{with_offer, with_offers};

use crate::factors::{factors, is_same};
use crate::gathering::{add, is_full};
use crate::rows::{above_square, below_square, product_row};
use farkas_check::case_columns;
use items::Items;
use linear_terms::{Col, Mono, Poly, Row};
use std::alloc::{AllocError, Global};

/// What squares and products say of whole numbers that make the rows true, in normal form, each
/// once and without the rows themselves: for each square `x*x` among the monomials of degree 2 and
/// more, in print order, `x - x*x <= 0` and `-x*x - x <= 0`; then `-p*q <= 0` for each two rows
/// `p <= 0` and `q <= 0` of degree 1, a row with itself included, that each have a column of these
/// monomials, where the product has one of these monomials. A row that cannot be made in 128 bits
/// is left out, and so is one that is always true; one that never is becomes `1 <= 0`. The first 64
/// are answered. The one error is want of memory.
#[tactic(auto, using(crate::proofs::FirstRows::gathered))]
pub fn products(alloc: Global, rows: &[Row]) -> Result<Items<Row>, AllocError>
    ensures { IfOk result (λ made. made ≡ products rows.now) }
{
    let monos = high_monos(alloc, rows)?;
    first_offers(alloc, rows, monos.as_slice())
}

/// The monomials of degree 2 and more, in print order, each once.
fn high_monos(alloc: Global, rows: &[Row]) -> Result<Items<Mono>, AllocError>
    ensures { IfOk result (λ made. made ≡ high_monos rows.now) }
{
    let columns = case_columns(alloc, rows, &[])?;
    high_of(alloc, columns.as_slice())
}

fn high_of(alloc: Global, monos: &[Mono]) -> Result<Items<Mono>, AllocError>
    ensures { IfOk result (λ made. made ≡ filter is_high monos.now) }
{
    let mut made = Items::new(alloc);
    for mono in monos {
        if is_high(mono.columns()) {
            made.push(*mono)?;
        }
    }
    Ok(made)
}

fn is_high(columns: &[Col]) -> bool
    ensures { result ≡ is_high columns.now }
{
    1 < columns.len()
}

/// The rows of squares and of products, as far as they are new and there is room.
#[tactic(auto, using(crate::proofs::FirstRows::gathered))]
fn first_offers(alloc: Global, rows: &[Row], monos: &[Mono]) -> Result<Items<Row>, AllocError>
    ensures { IfOk result
        (λ made. made ≡ with_offers most_products rows.now [] (offers_of monos.now rows.now)) }
{
    let mut made = Items::new(alloc);
    add_squares(alloc, rows, monos, &mut made)?;
    let factors = factors(alloc, monos, rows)?;
    add_products(alloc, rows, monos, factors.as_slice(), &mut made)?;
    Ok(made)
}

/// Adds the rows of each square among monomials.
#[tactic(auto, using(crate::proofs::FirstRows::gathered))]
fn add_squares(
    alloc: Global,
    rows: &[Row],
    monos: &[Mono],
    made: &mut Items<Row>,
) -> Result<(), AllocError>
    ensures { OnOk result
        (made.new
        ≡ with_offers most_products rows.now made.old (flat_map square_rows monos.now)) }
{
    for mono in monos {
        add_square(alloc, rows, mono.columns(), made)?;
    }
    Ok(())
}

/// Adds the rows of a monomial, if it is a square.
fn add_square(
    alloc: Global,
    rows: &[Row],
    columns: &[Col],
    made: &mut Items<Row>,
) -> Result<(), AllocError>
    ensures { OnOk result
        (made.new ≡ with_offers most_products rows.now made.old (square_rows columns.now)) }
{
    match columns {
        [x, y] => {
            if is_same(*x, *y) {
                add_rows_of_square(alloc, rows, *x, made)?;
            }
            Ok(())
        }
        _ => Ok(()),
    }
}

fn add_rows_of_square(
    alloc: Global,
    rows: &[Row],
    x: Col,
    made: &mut Items<Row>,
) -> Result<(), AllocError>
    ensures { OnOk result
        (made.new ≡ with_offers most_products rows.now made.old (square_rows (x ∷ x ∷ []))) }
{
    let below = below_square(alloc, x)?;
    add(rows, below, made)?;
    let above = above_square(alloc, x)?;
    add(rows, above, made)
}

/// Adds the rows of the products of each two factors.
#[tactic(auto, using(crate::proofs::FirstRows::gathered))]
fn add_products(
    alloc: Global,
    rows: &[Row],
    monos: &[Mono],
    factors: &[Poly],
    made: &mut Items<Row>,
) -> Result<(), AllocError>
    ensures { OnOk result
        (made.new
        ≡ with_offers most_products rows.now made.old (product_rows monos.now factors.now)) }
{
    let mut left = factors;
    while let Some((first, more)) = left.split_first() {
        add_products_with(alloc, rows, monos, first, left, made)?;
        left = more;
    }
    Ok(())
}

/// Adds the rows of the products of one factor and each of others.
fn add_products_with(
    alloc: Global,
    rows: &[Row],
    monos: &[Mono],
    first: &Poly,
    others: &[Poly],
    made: &mut Items<Row>,
) -> Result<(), AllocError>
    ensures { OnOk result
        (made.new
        ≡ with_offers most_products rows.now made.old
        (map (product_row monos.now first.now) others.now)) }
{
    for other in others {
        add_product(alloc, rows, monos, first, other, made)?;
    }
    Ok(())
}

/// Adds the row of a product; where there is no room, it is not made.
#[tactic(auto, using(crate::proofs::FirstRows::gathered))]
fn add_product(
    alloc: Global,
    rows: &[Row],
    monos: &[Mono],
    p: &Poly,
    q: &Poly,
    made: &mut Items<Row>,
) -> Result<(), AllocError>
    ensures { OnOk result
        (made.new
        ≡ with_offer most_products rows.now made.old (product_row monos.now p.now q.now)) }
{
    if is_full(made) {
        return Ok(());
    }
    let row = product_row(alloc, monos, p, q)?;
    add(rows, row, made)
}
