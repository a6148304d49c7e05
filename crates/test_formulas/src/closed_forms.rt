//! Rows of closed forms, at the count `$2`.

use crate::readers::{poly_of, polys_of};
use crate::texts::show_answer;
use closed_form::{row, sum_row};
use linear_terms::{Col, Poly};
use row_texts::Told;

/// The number afterwards, the number before and its first three differences.
pub(crate) fn show_closed_form(out: &mut Told, given: &str) {
    let given = polys_of(out, given, "|");
    show_row(out, given.as_slice());
}

fn show_row(out: &mut Told, given: &[Poly]) {
    match given {
        [after, before, first, second, third] => {
            let made = row(
                out.alloc(),
                after,
                before,
                first,
                second,
                third,
                Col::Aux(1),
            );
            show_answer(out, made);
        }
        _ => out.lose(),
    }
}

/// The change of a variable and the term that bounds it; and behind a semicolon the term's growth
/// and the constant.
pub(crate) fn show_sum_bound(out: &mut Told, given: &str) {
    let (polys, numbers) = out.halves(given, ";");
    let (growth, constant) = out.halves(numbers, "|");
    let growth = out.number_of(growth.trim());
    let constant = out.number_of(constant.trim());
    let (change, term) = out.halves(polys, "|");
    let change = poly_of(out, change);
    let term = poly_of(out, term);
    let made = sum_row(out.alloc(), &change, &term, growth, constant, Col::Aux(1));
    show_answer(out, made);
}
