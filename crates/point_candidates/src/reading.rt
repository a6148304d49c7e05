use crate::offering::offer;
use items::Items;
use linear_terms::{Poly, Row, TermError, subst};
use std::alloc::{AllocError, Global};

/// Adds the row with polynomials put in for its columns, if it has no column past them and is then
/// over the first so many columns alone.
pub(crate) fn add_read(
    alloc: Global,
    columns: usize,
    row: &Row,
    polys: &[Poly],
    rows: &mut Items<Row>,
) -> Result<(), AllocError> {
    let made = read(alloc, row, polys);
    match made {
        Ok(poly) if poly.is_covered(columns, 0) => offer(alloc, rows, Ok(poly), row.kind),
        Ok(_other) => Ok(()),
        Err(TermError::Memory) => Err(AllocError),
        Err(_lost) => Ok(()),
    }
}

fn read(alloc: Global, row: &Row, polys: &[Poly]) -> Result<Poly, TermError> {
    if row.poly.is_covered(polys.len(), 0) {
        subst(alloc, &row.poly, polys, &[])
    } else {
        Err(TermError::Degree)
    }
}
