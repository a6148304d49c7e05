//! Readers of what rows are made of. Where a text is none, the row is lost, and 0 or an empty value
//! stands in its place.

use farkas_check::Answer;
use items::Items;
use linear_terms::{Case, Kind, Poly, Row};
use polynomial_texts::{case, poly, row};
use row_texts::Told;
use wire::read_certificate;

pub(crate) fn poly_of(out: &mut Told, text: &str) -> Poly {
    match poly(out.alloc(), text) {
        Ok(poly) => poly,
        Err(_) => {
            out.lose();
            Poly::constant(out.alloc(), 0)
        }
    }
}

pub(crate) fn row_of(out: &mut Told, text: &str) -> Row {
    match row(out.alloc(), text) {
        Ok(row) => row,
        Err(_) => row_at_fault(out),
    }
}

pub(crate) fn row_at_fault(out: &mut Told) -> Row {
    out.lose();
    Row {
        poly: Poly::constant(out.alloc(), 0),
        kind: Kind::Equal,
    }
}

pub(crate) fn case_of(out: &mut Told, text: &str) -> Case {
    match case(out.alloc(), text) {
        Ok(case) => case,
        Err(_) => case_at_fault(out),
    }
}

pub(crate) fn case_at_fault(out: &mut Told) -> Case {
    out.lose();
    Case {
        aux: 0,
        rows: Items::new(out.alloc()),
        post: Items::new(out.alloc()),
    }
}

/// Polynomials with a mark between two.
pub(crate) fn polys_of(out: &mut Told, text: &str, mark: &str) -> Items<Poly> {
    let mut polys = Items::new(out.alloc());
    if !text.trim().is_empty() {
        for part in text.split(mark) {
            let poly = poly_of(out, part);
            out.lose_unless(polys.push(poly).is_ok());
        }
    }
    polys
}

/// Rows with semicolons between them.
pub(crate) fn rows_of(out: &mut Told, text: &str) -> Items<Row> {
    let mut rows = Items::new(out.alloc());
    if !text.trim().is_empty() {
        for part in text.split(';') {
            let row = row_of(out, part);
            out.lose_unless(rows.push(row).is_ok());
        }
    }
    rows
}

/// Numbers with blanks between them.
pub(crate) fn numbers_of(out: &mut Told, text: &str) -> Items<i128> {
    let mut numbers = Items::new(out.alloc());
    for part in text.trim().split(' ') {
        let number = out.number_of(part);
        out.lose_unless(numbers.push(number).is_ok());
    }
    numbers
}

/// Numbers below 2^32 with blanks between them.
pub(crate) fn small_numbers_of(out: &mut Told, text: &str) -> Items<u32> {
    let mut numbers = Items::new(out.alloc());
    for part in text.split(' ') {
        let number = out.small_number_of(part);
        out.lose_unless(numbers.push(number).is_ok());
    }
    numbers
}

/// The answers of a certificate file.
pub(crate) fn answers_of(out: &mut Told, file: &str) -> Items<Answer> {
    match read_certificate(out.alloc(), file.as_bytes()) {
        Ok(file) => file.answers,
        Err(_) => {
            out.lose();
            Items::new(out.alloc())
        }
    }
}
