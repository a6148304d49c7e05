//! Rows of the parts of polynomials, and of equality.

use crate::readers::{case_at_fault, case_of, poly_of, row_at_fault, row_of};
use items::Items;
use linear_terms::{Case, Col, Mono, Poly, Row};
use row_texts::Told;

pub(crate) fn show(out: &mut Told, kind: &str, given: &str) {
    match kind {
        "monomial" => show_monomial(out, given),
        "parts" => show_parts(out, given),
        "equal rows" => show_equal_rows(out, given),
        _ => show_equal_cases(out, given),
    }
}

/// Entry columns by their numbers.
fn columns_of(out: &mut Told, text: &str) -> Items<Col> {
    let mut columns = Items::new(out.alloc());
    for part in text.split_whitespace() {
        let number = out.small_number_of(part);
        out.lose_unless(columns.push(Col::At(number)).is_ok());
    }
    columns
}

/// The columns of a monomial.
fn show_monomial(out: &mut Told, given: &str) {
    let columns = columns_of(out, given);
    match Mono::new(columns.as_slice()) {
        Some(mono) => out.value(&mono),
        None => out.word("none"),
    }
}

/// A polynomial: its terms without the constant; the numbers at x0*x1 and at $2; which of the
/// columns x0 to x2 and of two auxiliaries it has; and its first and its fourth term.
fn show_parts(out: &mut Told, given: &str) {
    let a = poly_of(out, given);
    show_terms(out, given);
    show_numbers(out, &a);
    show_columns(out, &a);
    show_term(out, &a, 0);
    show_term(out, &a, 3);
}

fn show_terms(out: &mut Told, given: &str) {
    let terms = poly_of(out, given).without_constant();
    out.value(&terms);
}

fn show_numbers(out: &mut Told, a: &Poly) {
    out.word(" ; ");
    match Mono::new(&[Col::At(0), Col::At(1)]) {
        Some(product) => out.number(a.coefficient(&product)),
        None => out.lose(),
    }
    out.word(" ");
    out.number(a.column_coefficient(Col::Aux(1)));
}

fn show_columns(out: &mut Told, a: &Poly) {
    out.word(" ;");
    for number in 0..3 {
        out.word(" ");
        out.truth(a.has_entry(number));
    }
    for number in 0..2 {
        out.word(" ");
        out.truth(a.has_auxiliary(number));
    }
}

fn show_term(out: &mut Told, a: &Poly, place: usize) {
    out.word(" ; ");
    match a.term(place) {
        Some((mono, number)) => {
            out.number(number);
            out.word("*");
            out.value(&mono);
        }
        None => out.word("none"),
    }
}

/// Two rows, of which the second may be a copy.
fn show_equal_rows(out: &mut Told, given: &str) {
    let (first, second) = out.halves(given, "|");
    let first = row_of(out, first);
    let second = row_or_copy(out, &first, second.trim());
    out.truth(first.same(&second));
}

fn row_or_copy(out: &mut Told, first: &Row, text: &str) -> Row {
    match text {
        "copy" => row_copy(out, first),
        _ => row_of(out, text),
    }
}

fn row_copy(out: &mut Told, row: &Row) -> Row {
    match row.clone() {
        Ok(copy) => copy,
        Err(_) => row_at_fault(out),
    }
}

/// Two cases, of which the second may be a copy.
fn show_equal_cases(out: &mut Told, given: &str) {
    let (first, second) = out.halves(given, "/");
    let first = case_of(out, first);
    let second = case_or_copy(out, &first, second.trim());
    out.truth(first.same(&second));
}

fn case_or_copy(out: &mut Told, first: &Case, text: &str) -> Case {
    match text {
        "copy" => case_copy(out, first),
        _ => case_of(out, text),
    }
}

fn case_copy(out: &mut Told, case: &Case) -> Case {
    match case.clone() {
        Ok(copy) => copy,
        Err(_) => case_at_fault(out),
    }
}
