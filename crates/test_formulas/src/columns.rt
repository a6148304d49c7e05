//! Rows of formulas over other entry columns, and with other posts.
ghost use Rattle.std.specs.Prelude.{◌≡◌, IfOk};

use crate::formulas::{formula_between, formula_of, show_formula};
use crate::numbered::{are_below, hide_few};
use crate::readers::small_numbers_of;
use items::Items;
use linear_terms::Case;
use row_texts::Told;
use std::alloc::{AllocError, Global};
use transition_formula::{
    Formula, Loss, equated_formula, hidden, raised_formula, with_entries, with_posts,
};

/// The columns before and after, what the operation takes, and the cases: what comes of the
/// formula.
pub(crate) fn show(out: &mut Told, kind: &str, given: &str) {
    let (head, cases) = out.halves(given, " : ");
    let head = small_numbers_of(out, head);
    show_between(out, kind, head.as_slice(), cases);
}

fn show_between(out: &mut Told, kind: &str, head: &[u32], cases: &str) {
    match head {
        [from, to, rest @ ..] => {
            let f = formula_between(out, *from, *to, cases);
            show_changed(out, kind, &f, rest);
        }
        _ => out.lose(),
    }
}

fn show_changed(out: &mut Told, kind: &str, f: &Formula, rest: &[u32]) {
    let mut losses = Items::new(out.alloc());
    match changed_formula(out.alloc(), kind, f, rest, &mut losses) {
        Some(made) => show_made(out, &made, losses.as_slice()),
        None => out.lose(),
    }
}

/// The columns before and after, and the formula.
fn show_made(out: &mut Told, made: &Formula, losses: &[Loss]) {
    out.place("", made.from());
    out.place(" ", made.to());
    out.word(" : ");
    show_formula(out, made, losses);
}

fn changed_formula(
    alloc: Global,
    kind: &str,
    f: &Formula,
    rest: &[u32],
    losses: &mut Items<Loss>,
) -> Option<Formula> {
    match kind {
        "hidden" => hidden_from(alloc, f, rest, losses),
        "posts" => posts_of(alloc, f, rest),
        "entries" => entries_of(alloc, f, rest),
        "raised" => raise_answer(f, rest),
        "equated" => equate_answer(alloc, f, rest, losses),
        _ => copy_of(alloc, f),
    }
}

fn hidden_from(
    alloc: Global,
    f: &Formula,
    rest: &[u32],
    losses: &mut Items<Loss>,
) -> Option<Formula> {
    match rest {
        [n] => hidden_after(alloc, f, *n, losses),
        _ => None,
    }
}

fn hidden_after(alloc: Global, f: &Formula, n: u32, losses: &mut Items<Loss>) -> Option<Formula> {
    if n > f.from() {
        return None;
    }
    if !hide_few(f.cases(), f.from(), n, f.to()) {
        return None;
    }
    hidden(alloc, f, n, losses).ok()
}

fn posts_of(alloc: Global, f: &Formula, places: &[u32]) -> Option<Formula> {
    if places.len() >= 1000 || !are_below(places, f.to()) {
        return None;
    }
    with_posts(alloc, f, places).ok()
}

fn entries_of(alloc: Global, f: &Formula, places: &[u32]) -> Option<Formula> {
    if places.len() >= 1000 || !are_below(places, f.from()) {
        return None;
    }
    with_entries(alloc, f, places).ok()
}

fn raise_answer(f: &Formula, rest: &[u32]) -> Option<Formula> {
    match rest {
        [from] => {
            if f.from() <= *from {
                return raised_formula(f, *from).ok();
            }
            None
        }
        _ => None,
    }
}

/// The first of the entry columns, and then the places of the posts.
fn equate_answer(
    alloc: Global,
    f: &Formula,
    rest: &[u32],
    losses: &mut Items<Loss>,
) -> Option<Formula> {
    match rest {
        [first, places @ ..] => equate_behind(alloc, f, *first, places, losses),
        _ => None,
    }
}

fn equate_behind(
    alloc: Global,
    f: &Formula,
    first: u32,
    places: &[u32],
    losses: &mut Items<Loss>,
) -> Option<Formula> {
    if first >= 1000 || places.len() >= 1000 {
        return None;
    }
    if first as usize + places.len() > f.from() as usize || !are_below(places, f.to()) {
        return None;
    }
    equated_formula(alloc, f, first, places, losses).ok()
}

fn copies(alloc: Global, cases: &[Case]) -> Result<Items<Case>, AllocError>
    ensures { IfOk result (λ copies. copies ≡ cases.now) }
{
    let mut copies = Items::new(alloc);
    for case in cases {
        copies.push(case.clone()?)?;
    }
    Ok(copies)
}

/// The same cases, made anew.
fn copy_of(alloc: Global, f: &Formula) -> Option<Formula> {
    let cases = copies(alloc, f.cases()).ok()?;
    Some(Formula::from_cases(f.from(), f.to(), cases))
}

/// The formula between columns that stand before it.
fn formula_behind(out: &mut Told, given: &str) -> Formula {
    let (head, cases) = out.halves(given, " : ");
    let (from, to) = out.halves(head, " ");
    formula_of(out, from, to, cases)
}

fn show_answer(out: &mut Told, answer: bool) {
    out.word(if answer { "yes" } else { "no" });
}

/// Whether two formulas are one.
pub(crate) fn show_sameness(out: &mut Told, given: &str) {
    let (first, second) = out.halves(given, " == ");
    let first = formula_behind(out, first);
    let second = formula_behind(out, second);
    show_answer(out, first.same(&second));
}

/// Whether a formula is fitted.
pub(crate) fn show_fitness(out: &mut Told, given: &str) {
    let f = formula_behind(out, given);
    show_answer(out, f.is_fitted());
}
