use items::Items;
use linear_terms::{Kind, Poly, Row, TermError, scale};
use std::alloc::{AllocError, Global};

/// The rows without those that another one has with a greater constant, which then stands where the
/// first one stood, or as an equation.
pub(crate) fn strongest(alloc: Global, rows: Items<Row>) -> Result<Items<Row>, AllocError> {
    let highest = highest_rows(alloc, rows)?;
    let mut kept = Items::new(alloc);
    for row in highest.as_slice() {
        if !is_equated(alloc, highest.as_slice(), row)? {
            kept.push(row.clone()?)?;
        }
    }
    Ok(kept)
}

/// Of inequalities that differ in the constant that with the greatest one.
fn highest_rows(alloc: Global, rows: Items<Row>) -> Result<Items<Row>, AllocError> {
    let mut kept = Vec::new(alloc);
    for row in rows {
        let place = place_of(&kept, &row);
        if place < kept.len() {
            raise(&mut kept[place], row);
        } else {
            kept.push(row)?;
        }
    }
    Ok(Items::from_vec(kept))
}

/// The place of an inequality that differs from an inequality in the constant at most; their number
/// where there is none.
fn place_of(rows: &[Row], row: &Row) -> usize {
    for (place, known) in rows.iter().enumerate() {
        if is_at_most(known) && is_at_most(row) && has_same_terms(known, row) {
            return place;
        }
    }
    rows.len()
}

fn is_at_most(row: &Row) -> bool {
    matches!(row.kind, Kind::AtMost)
}

fn has_same_terms(row: &Row, other: &Row) -> bool {
    row.poly.terms() == other.poly.terms()
}

/// Puts the row in another one's place, if its constant is greater.
fn raise(known: &mut Row, row: Row) {
    if known.poly.rest() < row.poly.rest() {
        *known = row;
    }
}

/// Whether an inequality's polynomial, or its negative, is that of an equation but for the
/// constant.
fn is_equated(alloc: Global, rows: &[Row], row: &Row) -> Result<bool, AllocError> {
    if !is_at_most(row) {
        return Ok(false);
    }
    match scale(alloc, &row.poly, -1) {
        Ok(turned) => Ok(has_equation(rows, &row.poly) || has_equation(rows, &turned)),
        Err(TermError::Memory) => Err(AllocError),
        Err(_lost) => Ok(has_equation(rows, &row.poly)),
    }
}

fn has_equation(rows: &[Row], poly: &Poly) -> bool {
    rows.iter()
        .any(|row| !is_at_most(row) && row.poly.terms() == poly.terms())
}
