ghost use Rattle.std.specs.Prelude.{IfOk, length};
ghost use Rattle.point_rows.specs.Reading.{AreOverColumns};

use crate::offering::{is_listed, offer, rows_over};
use items::Items;
use linear_terms::{Col, Kind, Poly, Row, TermError, difference};
use std::alloc::{AllocError, Global};
use syntax_tree::Program;

/// The rows of these texts, one list for each procedure, that are over globals alone, and behind
/// them the initial values of the globals as bounds. The one error is want of memory.
pub fn shared_rows(
    alloc: Global,
    program: &Program,
    texts: &[Items<Row>],
) -> Result<Items<Row>, AllocError>
    ensures { IfOk result (AreOverColumns (length program.now.globals)) }
{
    let globals = program.globals.len();
    let mut rows = Items::new(alloc);
    for text in texts {
        add_below(globals, text.as_slice(), &mut rows)?;
    }
    add_initial(alloc, program, &mut rows)?;
    rows_over(alloc, globals, rows)
}

/// Adds those of the rows that are over the first so many columns.
fn add_below(columns: usize, text: &[Row], rows: &mut Items<Row>) -> Result<(), AllocError> {
    for row in text {
        if row.poly.is_covered(columns, 0) {
            add_copy(row, rows)?;
        }
    }
    Ok(())
}

/// Adds a copy of a row, unless it is there already.
pub(crate) fn add_copy(row: &Row, rows: &mut Items<Row>) -> Result<(), AllocError> {
    if !is_listed(rows.as_slice(), row) {
        rows.push(row.clone()?)?;
    }
    Ok(())
}

/// Adds that each global is at most its initial value, and at least it.
fn add_initial(alloc: Global, program: &Program, rows: &mut Items<Row>) -> Result<(), AllocError> {
    let mut col = 0;
    for global in program.globals.as_slice() {
        let value = Poly::constant(alloc, global.init);
        offer(
            alloc,
            rows,
            column_less_value(alloc, col, &value),
            Kind::AtMost,
        )?;
        offer(
            alloc,
            rows,
            value_less_column(alloc, col, &value),
            Kind::AtMost,
        )?;
        col = next_column(col);
    }
    Ok(())
}

fn next_column(col: u32) -> u32 {
    col.saturating_add(1)
}

fn column_less_value(alloc: Global, col: u32, value: &Poly) -> Result<Poly, TermError> {
    let column = Poly::column(alloc, Col::At(col))?;
    difference(alloc, &column, value)
}

fn value_less_column(alloc: Global, col: u32, value: &Poly) -> Result<Poly, TermError> {
    let column = Poly::column(alloc, Col::At(col))?;
    difference(alloc, value, &column)
}
