//! What the simplex method finds: the kind of an answer, and whether it passes the test.

use crate::questions::{goals_of, question_of, stratum_question_of};
use crate::readers::rows_of;
use crate::texts::show_worded_step;
use elimination::narrow;
use farkas_check::{Answer, Limit, Question, Relation, test};
use row_texts::Told;
use simplex::{answer, infeasible, sup};

/// A limit in words.
pub(crate) fn show_limit(out: &mut Told, limit: Limit) {
    match limit {
        Limit::Pivots => out.word("pivots"),
        Limit::Wide { left, right, times } => {
            out.word("limit ");
            show_worded_step(out, left, right, times);
        }
    }
}

fn show_bound(out: &mut Told, at: i128, case: u32) {
    out.word("bound ");
    out.number(at);
    out.place(" at ", case);
}

fn show_kind(out: &mut Told, answer: &Answer) {
    match answer {
        Answer::Yes(_) => out.word("yes"),
        Answer::No(_) => out.word("no"),
        Answer::Bound { at, case, .. } => show_bound(out, *at, *case),
        Answer::Unbounded { case, .. } => out.place("unbounded at ", *case),
        Answer::Limit(limit) => show_limit(out, *limit),
        Answer::Basis { .. } => out.word("basis"),
    }
}

fn show_answer(out: &mut Told, question: &Question, answer: &Answer) {
    show_kind(out, answer);
    out.word(", ");
    out.truth(test(question, answer));
}

/// Rows; `none` stands for no row.
pub(crate) fn show_rows(out: &mut Told, given: &str) {
    let rows = rows_of(out, if given == "none" { "" } else { given });
    match infeasible(out.alloc(), rows.as_slice()) {
        Ok(answer) => show_answer(out, &Question::Infeasible(rows), &answer),
        Err(_) => out.lose(),
    }
}

/// Goals.
pub(crate) fn show_supremum(out: &mut Told, given: &str) {
    let goals = goals_of(out, given);
    match sup(out.alloc(), goals.as_slice()) {
        Ok(answer) => show_answer(out, &Question::Sup(goals), &answer),
        Err(_) => out.lose(),
    }
}

fn show_numbers(out: &mut Told, numbers: &[i128]) {
    for number in numbers {
        out.number(*number);
        out.word(" ");
    }
}

/// The numbers of the terms, those of the lower terms, and the constant.
fn show_relation(out: &mut Told, relation: &Relation) {
    show_numbers(out, relation.a.as_slice());
    out.word("| ");
    show_numbers(out, relation.b.as_slice());
    out.word("| ");
    out.number(relation.c);
    out.word("; ");
}

fn show_each_relation(out: &mut Told, relations: &[Relation]) {
    for relation in relations {
        show_relation(out, relation);
    }
}

/// The relations of a basis, or the kind of another answer.
fn show_found(out: &mut Told, answer: &Answer) {
    match answer {
        Answer::Basis { relations, .. } => show_each_relation(out, relations.as_slice()),
        other => show_kind(out, other),
    }
}

/// The relations of an answer to a question, and whether it passes.
fn show_basis(out: &mut Told, asked: &Question, found: &Answer) {
    show_found(out, found);
    out.truth(test(asked, found));
}

/// A question about relations.
pub(crate) fn show_relations(out: &mut Told, given: &str) {
    let asked = stratum_question_of(out, given);
    match answer(out.alloc(), &asked) {
        Ok(found) => show_basis(out, &asked, &found),
        Err(_) => out.lose(),
    }
}

/// A narrow question about relations.
pub(crate) fn show_narrow_relations(out: &mut Told, given: &str) {
    let asked = stratum_question_of(out, given);
    match elimination::answer(out.alloc(), &asked) {
        Ok(found) => show_basis(out, &asked, &found),
        Err(_) => out.lose(),
    }
}

/// Whether a question is narrow; the first line is its kind.
pub(crate) fn show_narrow(out: &mut Told, given: &str) {
    let (kind, text) = out.halves(given, "\n");
    let asked = question_of(out, kind, text);
    match narrow(out.alloc(), &asked) {
        Ok(is_narrow) => out.truth(is_narrow),
        Err(_) => out.lose(),
    }
}
