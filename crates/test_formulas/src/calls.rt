//! The calls, each on a formula of few columns and parts.

use crate::formulas::{show_case, show_cases};
use polyhedra::{Log, Vocabulary, finish, fit, settle, thin};
use recurrence::star;
use row_texts::Told;
use transition_formula::Formula;
use wire::ListedAnswers;

pub(crate) fn show_settle(out: &mut Told, f: &Formula, oracle: &mut ListedAnswers, log: &mut Log) {
    let _cases = f.cases();
    if f.to() > 63 {
        return out.lose();
    }
    if !f.is_fitted() {
        return out.lose();
    }
    match settle(out.alloc(), f, oracle, log) {
        Ok(made) => show_cases(out, &made),
        Err(_) => out.lose(),
    }
}

/// Of the one case of a formula.
pub(crate) fn show_thin(out: &mut Told, f: &Formula, oracle: &mut ListedAnswers, log: &mut Log) {
    let [full] = f.cases() else {
        return out.lose();
    };
    match thin(out.alloc(), full, oracle, log) {
        Ok(made) => show_case(out, &made),
        Err(_) => out.lose(),
    }
}

/// Of the one case of a formula.
pub(crate) fn show_finish(out: &mut Told, f: &Formula, oracle: &mut ListedAnswers, log: &mut Log) {
    let cases = f.cases();
    if f.to() > 63 {
        return out.lose();
    }
    if !f.is_fitted() {
        return out.lose();
    }
    let [full] = cases else {
        return out.lose();
    };
    match finish(out.alloc(), full, oracle, log) {
        Ok(Some(left)) => show_case(out, &left),
        Ok(None) => out.word("false"),
        Err(_) => out.lose(),
    }
}

/// Between two ends of one vocabulary.
pub(crate) fn show_fit(
    out: &mut Told,
    f: &Formula,
    voc: &Vocabulary,
    oracle: &mut ListedAnswers,
    log: &mut Log,
) {
    let _cases = f.cases();
    let columns = voc.columns();
    if columns > 63 {
        return out.lose();
    }
    if columns != f.from() {
        return out.lose();
    }
    if columns != f.to() {
        return out.lose();
    }
    match fit(out.alloc(), f, voc, voc, oracle, log) {
        Ok(made) => show_cases(out, &made),
        Err(_) => out.lose(),
    }
}

/// Of a body.
pub(crate) fn show_star(
    out: &mut Told,
    body: &Formula,
    voc: &Vocabulary,
    oracle: &mut ListedAnswers,
    log: &mut Log,
) {
    let _cases = body.cases();
    let columns = voc.columns();
    if columns > 63 {
        return out.lose();
    }
    if columns != body.from() {
        return out.lose();
    }
    if columns != body.to() {
        return out.lose();
    }
    match star(out.alloc(), body, voc, oracle, log) {
        Ok(made) => show_cases(out, &made),
        Err(_) => out.lose(),
    }
}
