ghost use Rattle.std.specs.Prelude.{◌≡◌, length, Result, IfOk, OnOk};
ghost use Rattle.std.specs.Bool.{then_some};
ghost use Rattle.std.specs.List.{list_any};
ghost use Rattle.items.specs.Gives.{Gives};
ghost use Rattle.linear_terms.specs.TermError.{cause};
ghost use Rattle.linear_terms.specs.declared.error.TermError.{TermError};
ghost use Rattle.linear_terms.specs.declared.row.Normal.{Normal};
ghost use Rattle.row_products.specs.Products.{same_row};
ghost use Rattle.point_rows.specs.Reading.{AreOverColumns, given_rows, rows_with_read, with_new_row};

use crate::reading::read_row;
use items::Items;
use linear_terms::{Normal, Poly, Row, TermError};
use std::alloc::{AllocError, Global};

/// The own rows, and behind them what the rows say where their columns are the posts, in normal
/// form. What is always true, what is there already, and a row of which a step is lost, because it
/// leaves 128 bits or passes degree 4, add nothing; none where one of the rows is false. The one
/// error is want of memory.
pub fn given_rows(
    alloc: Global,
    posts: &[Poly],
    own: &[Row],
    rows: &[Row],
) -> Result<Option<Items<Row>>, AllocError>
    requires { AreOverColumns (length posts.now) rows.now }
    ensures { IfOk result (λ given. given ≡ given_rows posts.now own.now rows.now) }
{
    let mut given = copies(alloc, own)?;
    for row in rows {
        let form = read_row(alloc, posts, row);
        if !add_read(form, &mut given)? {
            return Ok(None);
        }
    }
    Ok(Some(given))
}

fn copies(alloc: Global, rows: &[Row]) -> Result<Items<Row>, AllocError>
    ensures { IfOk result (λ made. made ≡ rows.now) }
{
    let mut made = Items::new(alloc);
    for row in rows {
        made.push(row.clone()?)?;
    }
    Ok(made)
}

/// Adds what was read to rows; whether it can be true.
fn add_read(form: Result<Normal, TermError>, rows: &mut Items<Row>) -> Result<bool, AllocError>
    ensures { (stated : Result Normal TermError) → Gives cause (λ form. form) form stated
        → IfOk result (λ stands. then_some stands rows.new ≡ rows_with_read rows.old stated) }
{
    match form {
        Ok(Normal::Constant(holds)) => Ok(holds),
        Ok(Normal::Kept(row)) => {
            add_new(row, rows)?;
            Ok(true)
        }
        Err(TermError::Memory) => Err(AllocError),
        Err(_lost) => Ok(true),
    }
}

/// Adds a row, unless it is there.
fn add_new(row: Row, rows: &mut Items<Row>) -> Result<(), AllocError>
    ensures { OnOk result (rows.new ≡ with_new_row rows.old row) }
{
    if !is_among(&row, rows.as_slice()) {
        rows.push(row)?;
    }
    Ok(())
}

fn is_among(row: &Row, rows: &[Row]) -> bool
    ensures { result ≡ list_any (same_row row.now) rows.now }
{
    rows.iter().any(|other| is_same(row, other))
}

fn is_same(row: &Row, other: &Row) -> bool
    ensures { result ≡ same_row row.now other.now }
{
    row == other
}
