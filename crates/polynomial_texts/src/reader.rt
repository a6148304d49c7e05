use crate::PolynomialError;
use crate::reading::Reading;
use items::Items;
use linear_terms::{Case, Col, Kind, Poly, Row, add, mul, scale};
use std::alloc::Global;

/// The polynomial that a text is, as `2*x0*$1 - x1 + 3`.
pub fn poly(alloc: Global, text: &str) -> Result<Poly, PolynomialError> {
    let mut reading = Reading::new(alloc);
    let made = poly_of(&mut reading, text);
    match reading.fault() {
        Some(fault) => Err(fault),
        None => Ok(made),
    }
}

/// The row that a text is, as `x0 - 5 <= 0`.
pub fn row(alloc: Global, text: &str) -> Result<Row, PolynomialError> {
    let mut reading = Reading::new(alloc);
    let made = row_of(&mut reading, text);
    match reading.fault() {
        Some(fault) => Err(fault),
        None => Ok(made),
    }
}

/// The case that a text is, as `1 | x0 - $1 <= 0 ; 2*$1`.
pub fn case(alloc: Global, text: &str) -> Result<Case, PolynomialError> {
    let mut reading = Reading::new(alloc);
    let made = case_of(&mut reading, text);
    match reading.fault() {
        Some(fault) => Err(fault),
        None => Ok(made),
    }
}

fn case_of(reading: &mut Reading, text: &str) -> Case {
    let head = text.split(';').next().unwrap_or("");
    let aux = reading.number(head.split('|').next().unwrap_or("").trim());
    let rows = rows_of(reading, head);
    let post = posts_of(reading, text);
    Case { aux, rows, post }
}

/// The rows behind the first bar of a text.
fn rows_of(reading: &mut Reading, head: &str) -> Items<Row> {
    let mut rows = Items::new(reading.alloc());
    for part in head.split('|').skip(1) {
        let row = row_of(reading, part);
        if rows.push(row).is_err() {
            reading.fail(PolynomialError::Memory);
        }
    }
    rows
}

/// The posts behind the first semicolon of a text.
fn posts_of(reading: &mut Reading, text: &str) -> Items<Poly> {
    let mut posts = Items::new(reading.alloc());
    for part in text.split(';').skip(1) {
        let post = poly_of(reading, part);
        if posts.push(post).is_err() {
            reading.fail(PolynomialError::Memory);
        }
    }
    posts
}

fn row_of(reading: &mut Reading, text: &str) -> Row {
    let text = text.trim();
    if let Some(left) = text.strip_suffix("<= 0") {
        let poly = poly_of(reading, left);
        return Row {
            poly,
            kind: Kind::AtMost,
        };
    }
    let poly = match text.strip_suffix("= 0") {
        Some(left) => poly_of(reading, left),
        None => reading.zero_at_fault(),
    };
    Row {
        poly,
        kind: Kind::Equal,
    }
}

fn poly_of(reading: &mut Reading, text: &str) -> Poly {
    let mut made = Poly::constant(reading.alloc(), 0);
    for sum in text.split(" + ") {
        made = with_differences(reading, made, sum);
    }
    made
}

/// A sum, and then terms of which all but the first are turned in sign.
fn with_differences(reading: &mut Reading, sum: Poly, text: &str) -> Poly {
    let mut made = sum;
    let mut negative = false;
    for term in text.split(" - ") {
        made = with_term(reading, &made, term.trim(), negative);
        negative = true;
    }
    made
}

/// A sum and one term more, turned in sign or not.
fn with_term(reading: &mut Reading, sum: &Poly, text: &str, negative: bool) -> Poly {
    let term = signed_term(reading, text, negative);
    let made = add(reading.alloc(), sum, &term);
    reading.value_of(made)
}

/// A term, turned in sign or not. The least number of 128 bits has its sign before it.
fn signed_term(reading: &mut Reading, text: &str, turned: bool) -> Poly {
    match text.strip_prefix('-') {
        Some(text) => product(reading, text, !turned),
        None => product(reading, text, turned),
    }
}

/// A product of factors, turned in sign or not.
fn product(reading: &mut Reading, text: &str, negative: bool) -> Poly {
    let mut factors = text.split('*');
    let mut made = signed_factor(reading, factors.next().unwrap_or(""), negative);
    for factor in factors {
        made = with_factor(reading, &made, factor);
    }
    made
}

/// A product and one factor more.
fn with_factor(reading: &mut Reading, product: &Poly, text: &str) -> Poly {
    let factor = signed_factor(reading, text, false);
    let made = mul(reading.alloc(), product, &factor);
    reading.value_of(made)
}

/// A factor, turned in sign or not: `x0` is entry column 0 and `$1` the first auxiliary.
fn signed_factor(reading: &mut Reading, text: &str, negative: bool) -> Poly {
    if let Some(number) = text.strip_prefix('x') {
        let number = reading.number(number);
        return signed_column(reading, Col::At(number), negative);
    }
    if let Some(number) = text.strip_prefix('$') {
        let number = reading.auxiliary(number);
        return signed_column(reading, Col::Aux(number), negative);
    }
    signed_number(reading, text, negative)
}

fn signed_column(reading: &mut Reading, col: Col, negative: bool) -> Poly {
    let column = Poly::column(reading.alloc(), col);
    let column = reading.value_of(column);
    let made = scale(reading.alloc(), &column, if negative { -1 } else { 1 });
    reading.value_of(made)
}

fn signed_number(reading: &mut Reading, text: &str, negative: bool) -> Poly {
    let sign = if negative { "-" } else { "" };
    match format!(in reading.alloc(); "{sign}{text}") {
        Ok(number) => reading.constant(number.as_str()),
        Err(_) => {
            reading.fail(PolynomialError::Memory);
            Poly::constant(reading.alloc(), 0)
        }
    }
}
