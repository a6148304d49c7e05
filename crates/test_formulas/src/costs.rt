//! By how much a case changes a global, where the finder answers; and whether the multipliers of a
//! bound pass the test of what is left of its question.

use crate::readers::case_of;
use crate::searches::show_limit;
use cost_bounds::{Cost, bound};
use farkas_check::{Answer, Question, test};
use finder::Finder;
use items::Items;
use linear_terms::{Case, Poly, Row};
use posing::Log;
use row_texts::Told;
use std::alloc::Global;

fn show_bound(out: &mut Told, scale: i128, by: &Poly) {
    if scale != 1 {
        out.number(scale);
        out.word("*");
    }
    out.word("change <= ");
    out.value(by);
}

fn show_multipliers(out: &mut Told, multipliers: &[i128]) {
    out.word(" by");
    for number in multipliers {
        out.word(" ");
        out.number(*number);
    }
}

/// Whether multipliers pass the test of a question.
fn show_test(out: &mut Told, kept: Items<Row>, multipliers: Items<i128>) {
    show_multipliers(out, multipliers.as_slice());
    let passes = test(&Question::Infeasible(kept), &Answer::Yes(multipliers));
    out.word(if passes { " passes" } else { " fails" });
}

fn show_exact(out: &mut Told, by: &Poly) {
    out.word("change = ");
    out.value(by);
}

fn show_cost(out: &mut Told, cost: Cost) {
    match cost {
        Cost::Exact(by) => show_exact(out, &by),
        Cost::Unbounded(_) => out.word("no bound"),
        Cost::Limit(limit) => show_limit(out, limit),
        Cost::Bound {
            scale,
            by,
            kept,
            multipliers,
        } => {
            show_bound(out, scale, &by);
            show_test(out, kept, multipliers);
        }
    }
}

/// By how much a case changes the global of a number.
fn cost_of(alloc: Global, case: &Case, number: u32) -> Option<Cost> {
    if number as usize >= case.post.len() {
        return None;
    }
    let mut finder = Finder::new(alloc);
    let mut log = Log::new(alloc);
    bound(alloc, case, number, &mut finder, &mut log).ok()
}

/// The number of a global, a colon and a case.
pub(crate) fn show(out: &mut Told, given: &str) {
    let (number, given) = out.halves(given, ":");
    let number = out.small_number_of(number.trim());
    let case = case_of(out, given.trim());
    match cost_of(out.alloc(), &case, number) {
        Some(cost) => show_cost(out, cost),
        None => out.lose(),
    }
}
