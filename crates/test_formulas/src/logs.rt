//! What a log has.

use crate::texts::show_step;
use farkas_check::Limit;
use polyhedra::{Log, Note};
use row_texts::Told;
use transition_formula::Loss;

/// How many answers were taken and are left, and the notes.
pub(crate) fn show_log(out: &mut Told, log: &Log, left: usize) {
    out.count("\n", log.answers.len());
    out.count(" taken, ", left);
    out.word(" left");
    for note in log.notes.as_slice() {
        show_note(out, note);
    }
}

fn show_note(out: &mut Told, note: &Note) {
    match note {
        Note::Loss(loss) => show_loss(out, *loss),
        Note::Limit(limit) => show_limit(out, *limit),
        Note::Squash(cases) => out.place(", squash of ", *cases),
        _ => out.word(", another note"),
    }
}

fn show_loss(out: &mut Told, loss: Loss) {
    match loss {
        Loss::Wide { left, right, times } => {
            out.word(", loss ");
            show_step(out, left, right, times);
        }
        Loss::Degree => out.word(", loss of degree"),
    }
}

fn show_limit(out: &mut Told, limit: Limit) {
    match limit {
        Limit::Wide { left, right, times } => {
            out.word(", limit ");
            show_step(out, left, right, times);
        }
        Limit::Pivots => out.word(", limit of pivots"),
    }
}
