ghost use Rattle.std.specs.Prelude.{IfOk};
ghost use Rattle.point_rows.specs.Reading.{AreOverColumns};

use items::Items;
use linear_terms::{Kind, Normal, Poly, Row, TermError, normal};
use std::alloc::{AllocError, Global};

/// Adds the row that a polynomial makes, in normal form. One that is always true or never, one that
/// is there already, and one of which a step is lost, because it leaves 128 bits or passes degree
/// 4, add nothing. The one error is want of memory.
pub fn offer(
    alloc: Global,
    rows: &mut Items<Row>,
    poly: Result<Poly, TermError>,
    kind: Kind,
) -> Result<(), AllocError> {
    match normal_row(alloc, poly, kind) {
        Ok(Normal::Kept(row)) => add_new(rows, row),
        Ok(Normal::Constant(_)) => Ok(()),
        Err(TermError::Memory) => Err(AllocError),
        Err(_lost) => Ok(()),
    }
}

fn normal_row(
    alloc: Global,
    poly: Result<Poly, TermError>,
    kind: Kind,
) -> Result<Normal, TermError> {
    let poly = poly?;
    normal(alloc, &Row { poly, kind })
}

/// Adds a row, unless it is there already.
fn add_new(rows: &mut Items<Row>, row: Row) -> Result<(), AllocError> {
    if !is_listed(rows.as_slice(), &row) {
        rows.push(row)?;
    }
    Ok(())
}

/// Whether the row is one of the rows.
pub(crate) fn is_listed(rows: &[Row], row: &Row) -> bool {
    rows.iter().any(|known| known == row)
}

/// Those of the rows that are over the first so many columns alone. The one error is want of memory.
pub fn rows_over(alloc: Global, columns: usize, rows: Items<Row>) -> Result<Items<Row>, AllocError>
    ensures { IfOk result (AreOverColumns columns) }
{
    let mut kept = Items::new(alloc);
    for row in rows {
        if row.poly.is_covered(columns, 0) {
            kept.push(row)?;
        }
    }
    Ok(kept)
}
