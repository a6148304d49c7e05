//! Readers of the short texts of questions.

use crate::readers::{poly_of, polys_of, rows_of};
use farkas_check::{Change, Goal, Question, Stratum};
use items::Items;
use row_texts::Told;

fn goal_of(out: &mut Told, text: &str) -> Goal {
    let (before, after) = out.halves(text, ":");
    let rows = rows_of(out, before);
    let objective = poly_of(out, after);
    Goal { rows, objective }
}

/// Goals; `none` stands for no goal.
pub(crate) fn goals_of(out: &mut Told, text: &str) -> Items<Goal> {
    let mut goals = Items::new(out.alloc());
    if text != "none" {
        for part in text.split('%') {
            let goal = goal_of(out, part);
            out.lose_unless(goals.push(goal).is_ok());
        }
    }
    goals
}

fn change_of(out: &mut Told, text: &str) -> Change {
    let (before, after) = out.halves(text, ":");
    let rows = rows_of(out, before);
    let terms = polys_of(out, after, ";");
    Change { rows, terms }
}

fn changes_of(out: &mut Told, text: &str) -> Items<Change> {
    let mut changes = Items::new(out.alloc());
    if !text.trim().is_empty() {
        for part in text.split('%') {
            let change = change_of(out, part);
            out.lose_unless(changes.push(change).is_ok());
        }
    }
    changes
}

fn stratum_of(out: &mut Told, text: &str) -> Option<Stratum> {
    let (before, after) = out.halves(text, "|");
    let cases = changes_of(out, before);
    let lower = polys_of(out, after, ";");
    Stratum::new(cases, lower)
}

/// The question about relations that a text is.
pub(crate) fn stratum_question_of(out: &mut Told, text: &str) -> Question {
    match stratum_of(out, text) {
        Some(stratum) => Question::Stratum(stratum),
        None => question_at_fault(out),
    }
}

fn question_at_fault(out: &mut Told) -> Question {
    out.lose();
    Question::Infeasible(Items::new(out.alloc()))
}

/// The question of a kind.
pub(crate) fn question_of(out: &mut Told, kind: &str, text: &str) -> Question {
    match kind {
        "infeasible" => Question::Infeasible(rows_of(out, text)),
        "supremum" => Question::Sup(goals_of(out, text)),
        "stratum" => stratum_question_of(out, text),
        _ => question_at_fault(out),
    }
}
