//! What the test says of answers.

use crate::questions::question_of;
use crate::readers::answers_of;
use crate::texts::show_worded_step;
use farkas_check::{Answer, Limit, Question, test, test_width};
use row_texts::Told;

/// Whether the answer passes, and the step of the test that is wide.
fn show_verdict(out: &mut Told, question: &Question, answer: &Answer) {
    out.word(if test(question, answer) {
        "passes"
    } else {
        "fails"
    });
    show_width(out, test_width(question, answer));
    out.word("; ");
}

fn show_width(out: &mut Told, width: Option<Limit>) {
    match width {
        Some(Limit::Wide { left, right, times }) => {
            out.word(", wide ");
            show_worded_step(out, left, right, times);
        }
        Some(Limit::Pivots) => out.word(", pivots"),
        None => (),
    }
}

/// Whether a copy of a question is equal to it.
fn is_copied(out: &mut Told, question: &Question) -> bool {
    match question.clone() {
        Ok(copy) => copy == *question,
        Err(_) => {
            out.lose();
            false
        }
    }
}

fn is_answer_copied(out: &mut Told, answer: &Answer) -> bool {
    match answer.clone() {
        Ok(copy) => copy == *answer,
        Err(_) => {
            out.lose();
            false
        }
    }
}

/// A question and answers: what the test says of each, and whether their copies are equal.
pub(crate) fn show(out: &mut Told, kind: &str, given: &str) {
    let (asked, answered) = out.halves(given, "\n");
    let question = question_of(out, kind, asked);
    let answers = answers_of(out, answered);
    show_verdicts(out, &question, answers.as_slice());
}

fn show_verdicts(out: &mut Told, question: &Question, answers: &[Answer]) {
    let mut are_copied = is_copied(out, question);
    for answer in answers {
        show_verdict(out, question, answer);
        are_copied = is_answer_copied(out, answer) && are_copied;
    }
    out.word("copies ");
    out.truth(are_copied);
}
