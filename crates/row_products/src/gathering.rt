ghost use Rattle.std.specs.Prelude.{◌≡◌, length, nat_le, Some, OnOk};
ghost use Rattle.std.specs.List.{list_any};
ghost use Rattle.row_products.specs.Limits.{most_products};
ghost use Rattle.row_products.specs.Products.{same_row};
ghost use Rattle.row_products.specs.Offers.{is_left_out, with_offer};

use items::Items;
use linear_terms::Row;
use std::alloc::AllocError;

/// The most products.
const MOST_PRODUCTS: usize = 64;

/// Adds a row that is offered, if there is room and neither the rows nor those made have it.
pub(crate) fn add(rows: &[Row], offer: Option<Row>, made: &mut Items<Row>) -> Result<(), AllocError>
    ensures { OnOk result (made.new ≡ with_offer most_products rows.now made.old offer) }
{
    if let Some(row) = offer {
        add_row(rows, row, made)?;
    }
    Ok(())
}

fn add_row(rows: &[Row], row: Row, made: &mut Items<Row>) -> Result<(), AllocError>
    ensures { OnOk result (made.new ≡ with_offer most_products rows.now made.old (Some row)) }
{
    if !is_left_out(rows, made, &row) {
        made.push(row)?;
    }
    Ok(())
}

fn is_left_out(rows: &[Row], made: &Items<Row>, row: &Row) -> bool
    ensures { result ≡ is_left_out most_products rows.now made.now row.now }
{
    is_full(made) || is_among(row, rows) || is_among(row, made.as_slice())
}

/// Whether there is no room for another row.
pub(crate) fn is_full(made: &Items<Row>) -> bool
    ensures { result ≡ nat_le most_products (length made.now) }
{
    MOST_PRODUCTS <= made.len()
}

fn is_among(row: &Row, rows: &[Row]) -> bool
    ensures { result ≡ list_any (same_row row.now) rows.now }
{
    rows.iter().any(|other| is_same(row, other))
}

fn is_same(row: &Row, other: &Row) -> bool
    ensures { result ≡ same_row row.now other.now }
{
    row == other
}
