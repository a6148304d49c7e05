//! Rows of calls on polyhedra. The first line has the kind of the call, the columns before and
//! afterwards, how many of the latter are named, and the rule; the next one the formula; and then
//! come the answers, as a certificate file. What is told is the formula that comes of it, and what
//! the log has.

use crate::calls::{show_finish, show_fit, show_settle, show_star, show_thin};
use crate::formulas::formula_between;
use crate::logs::show_log;
use crate::readers::{answers_of, small_numbers_of};
use crate::vocabularies::first_named;
use polyhedra::{Log, Vocabulary};
use row_texts::Told;
use transition_formula::Formula;
use wire::ListedAnswers;

fn show_made(
    out: &mut Told,
    kind: &str,
    given: &Formula,
    voc: &Vocabulary,
    oracle: &mut ListedAnswers,
    log: &mut Log,
) {
    match kind {
        "settle" => show_settle(out, given, oracle, log),
        "thin" => show_thin(out, given, oracle, log),
        "finish" => show_finish(out, given, oracle, log),
        "fit" => show_fit(out, given, voc, oracle, log),
        "star" => show_star(out, given, voc, oracle, log),
        _ => out.lose(),
    }
}

/// What a call comes to, how many answers it took, how many it left, and what it noted.
fn show_call(
    out: &mut Told,
    kind: &str,
    given: &Formula,
    voc: &Vocabulary,
    oracle: &mut ListedAnswers,
) {
    let mut log = Log::new(out.alloc());
    show_made(out, kind, given, voc, oracle, &mut log);
    show_log(out, &log, oracle.left_count());
}

/// A call between so many columns.
fn show_sized(out: &mut Told, kind: &str, sizes: &[u32], given: &str, oracle: &mut ListedAnswers) {
    let [from, to, named, rule] = sizes else {
        return out.lose();
    };
    let given = formula_between(out, *from, *to, given);
    match first_named(out.alloc(), *to, *named, *rule) {
        Ok(voc) => show_call(out, kind, &given, &voc, oracle),
        Err(_) => out.lose(),
    }
}

/// What a row comes to.
pub(crate) fn show(out: &mut Told, head: &str, rest: &str) {
    let (given, answers) = out.halves(rest, "\n");
    let (kind, sizes) = out.halves(head, " ");
    let sizes = small_numbers_of(out, sizes);
    let mut oracle = ListedAnswers::new(answers_of(out, answers));
    show_sized(out, kind, sizes.as_slice(), given, &mut oracle);
}
