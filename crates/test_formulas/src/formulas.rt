//! Rows of cases and formulas.

use crate::numbered::{are_few, posts_are_numbered, rows_are_numbered};
use crate::readers::case_of;
use crate::texts::show_step;
use items::Items;
use linear_terms::Case;
use row_texts::Told;
use std::alloc::Global;
use transition_formula::{Formula, Loss, Solved, identity, join, seq, solve};

/// The cases that stand between slashes; `-` is none.
fn cases_of(out: &mut Told, text: &str) -> Items<Case> {
    let mut cases = Items::new(out.alloc());
    if text != "-" {
        for part in text.split('/') {
            let case = case_of(out, part);
            out.lose_unless(cases.push(case).is_ok());
        }
    }
    cases
}

/// The formula between so many columns.
pub(crate) fn formula_between(out: &mut Told, from: u32, to: u32, text: &str) -> Formula {
    let cases = cases_of(out, text);
    match Formula::new(from, to, cases) {
        Some(formula) => formula,
        None => {
            out.lose();
            Formula::from_cases(0, 0, Items::new(out.alloc()))
        }
    }
}

/// The formula between columns whose numbers are texts.
pub(crate) fn formula_of(out: &mut Told, from: &str, to: &str, cases: &str) -> Formula {
    let from = out.small_number_of(from);
    let to = out.small_number_of(to);
    formula_between(out, from, to, cases)
}

pub(crate) fn show_case(out: &mut Told, case: &Case) {
    out.place("", case.aux);
    for row in case.rows.as_slice() {
        out.word(" | ");
        out.value(row);
    }
    for post in case.post.as_slice() {
        out.word(" ; ");
        out.value(post);
    }
}

fn show_loss(out: &mut Told, loss: Loss) {
    out.word(" ! ");
    match loss {
        Loss::Wide { left, right, times } => show_step(out, left, right, times),
        Loss::Degree => out.word("degree"),
    }
}

fn show_losses(out: &mut Told, losses: &[Loss]) {
    for loss in losses {
        show_loss(out, *loss);
    }
}

/// The cases of a formula, with slashes between them.
pub(crate) fn show_cases(out: &mut Told, formula: &Formula) {
    let mut mark = "";
    for case in formula.cases() {
        out.word(mark);
        show_case(out, case);
        mark = " / ";
    }
}

/// A formula and what was lost.
pub(crate) fn show_formula(out: &mut Told, formula: &Formula, losses: &[Loss]) {
    show_cases(out, formula);
    show_losses(out, losses);
}

/// A case, put in order.
pub(crate) fn show_order(out: &mut Told, given: &str) {
    let case = case_of(out, given);
    let mut losses = Items::new(out.alloc());
    match case_in_order(out.alloc(), &case, &mut losses) {
        Some(made) => show_solved(out, &made, losses.as_slice()),
        None => out.lose(),
    }
}

fn show_solved(out: &mut Told, made: &Solved, losses: &[Loss]) {
    match made {
        Solved::Kept(case) => show_case(out, case),
        Solved::False => out.word("false"),
    }
    show_losses(out, losses);
}

fn case_in_order(alloc: Global, case: &Case, losses: &mut Items<Loss>) -> Option<Solved> {
    if case.aux >= 1000 || case.post.len() >= 1000 {
        return None;
    }
    if !rows_are_numbered(case.rows.as_slice(), case.aux) {
        return None;
    }
    if !posts_are_numbered(case.post.as_slice(), case.aux) {
        return None;
    }
    solve(alloc, case, losses).ok()
}

/// The columns before, between and after, and two formulas: one and then the other.
pub(crate) fn show_sequence(out: &mut Told, given: &str) {
    let (ends, formulas) = out.halves(given, " : ");
    let (first, second) = out.halves(formulas, " : ");
    let (from, rest) = out.halves(ends, " ");
    let (middle, to) = out.halves(rest, " ");
    let first = formula_of(out, from, middle, first);
    let second = formula_of(out, middle, to, second);
    show_both(out, &first, &second);
}

fn show_both(out: &mut Told, first: &Formula, second: &Formula) {
    let mut losses = Items::new(out.alloc());
    match sequence(out.alloc(), first, second, &mut losses) {
        Some(made) => show_formula(out, &made, losses.as_slice()),
        None => out.lose(),
    }
}

fn sequence(
    alloc: Global,
    first: &Formula,
    second: &Formula,
    losses: &mut Items<Loss>,
) -> Option<Formula> {
    if first.to() == second.from() && are_few(first.cases(), second.cases(), second.to()) {
        return seq(alloc, first, second, losses).ok();
    }
    None
}

/// The identity of so many columns, or else a formula between them.
pub(crate) fn show_choice(out: &mut Told, given: &str) {
    let (columns, given) = out.halves(given, " : ");
    let columns = out.small_number_of(columns);
    let other = formula_between(out, columns, columns, given);
    match identity(out.alloc(), columns) {
        Ok(same) => show_either(out, &same, &other),
        Err(_) => out.lose(),
    }
}

fn show_either(out: &mut Told, first: &Formula, second: &Formula) {
    match choice(out.alloc(), first, second) {
        Some(made) => show_cases(out, &made),
        None => out.lose(),
    }
}

fn choice(alloc: Global, first: &Formula, second: &Formula) -> Option<Formula> {
    if first.from() == second.from() && first.to() == second.to() {
        return join(alloc, first, second).ok();
    }
    None
}
