//! Rows of polynomials.

use crate::readers::{numbers_of, poly_of, polys_of, row_of};
use crate::texts::show_answer;
use linear_terms::{
    Normal, Poly, add, combination, difference, mul, negation, normal, scale, subst, subst_aux,
    without,
};
use row_texts::Told;

pub(crate) fn show(out: &mut Told, kind: &str, given: &str) {
    match kind {
        "sum" | "product" | "difference" => show_of_two(out, kind, given),
        "multiple" => show_multiple(out, given),
        "substitution" => show_substitution(out, given),
        "auxiliary" => show_auxiliary(out, given),
        "normal form" => show_normal_form(out, given),
        "combination" => show_combination(out, given),
        "negation" => show_negation(out, given),
        _ => out.lose(),
    }
}

fn show_of_two(out: &mut Told, kind: &str, given: &str) {
    let (first, second) = out.halves(given, "|");
    let a = poly_of(out, first);
    let b = poly_of(out, second);
    show_operation(out, kind, &a, &b);
}

fn show_operation(out: &mut Told, kind: &str, a: &Poly, b: &Poly) {
    let made = match kind {
        "sum" => add(out.alloc(), a, b),
        "product" => mul(out.alloc(), a, b),
        _ => difference(out.alloc(), a, b),
    };
    show_answer(out, made);
}

/// A polynomial and a number.
fn show_multiple(out: &mut Told, given: &str) {
    let (text, by) = out.halves(given, "|");
    let by = out.number_of(by.trim());
    let a = poly_of(out, text);
    let made = scale(out.alloc(), &a, by);
    show_answer(out, made);
}

/// A polynomial, what is put in for its entry columns, and what for its auxiliaries.
fn show_substitution(out: &mut Told, given: &str) {
    let (text, rest) = out.halves(given, ";");
    let (at, aux) = out.halves(rest, ";");
    let a = poly_of(out, text);
    let at = polys_of(out, at, "|");
    let aux = polys_of(out, aux, "|");
    show_put_in(out, &a, at.as_slice(), aux.as_slice());
}

fn show_put_in(out: &mut Told, a: &Poly, at: &[Poly], aux: &[Poly]) {
    if a.is_covered(at.len(), aux.len()) {
        let made = subst(out.alloc(), a, at, aux);
        show_answer(out, made);
    } else {
        out.lose();
    }
}

/// A polynomial, and what is put in for its second auxiliary; behind a semicolon its terms without
/// that.
fn show_auxiliary(out: &mut Told, given: &str) {
    let (first, second) = out.halves(given, "|");
    let a = poly_of(out, first);
    let by = poly_of(out, second);
    let made = subst_aux(out.alloc(), &a, 1, &by);
    show_answer(out, made);
    show_rest(out, &a);
}

fn show_rest(out: &mut Told, a: &Poly) {
    out.word(" ; ");
    match without(out.alloc(), a, 1) {
        Ok(rest) => out.value(&rest),
        Err(_) => out.lose(),
    }
}

/// A row.
fn show_normal_form(out: &mut Told, given: &str) {
    let given = row_of(out, given);
    match normal(out.alloc(), &given) {
        Ok(Normal::Constant(holds)) => out.truth(holds),
        Ok(Normal::Kept(row)) => out.value(&row),
        Err(error) => show_answer::<Poly>(out, Err(error)),
    }
}

/// Numbers and polynomials.
fn show_combination(out: &mut Told, given: &str) {
    let (factors, parts) = out.halves(given, ":");
    let factors = numbers_of(out, factors);
    let parts = polys_of(out, parts, "|");
    let made = combination(out.alloc(), factors.as_slice(), parts.as_slice());
    show_answer(out, made);
}

/// A polynomial.
fn show_negation(out: &mut Told, given: &str) {
    let a = poly_of(out, given);
    let made = negation(out.alloc(), &a);
    show_answer(out, made);
}
