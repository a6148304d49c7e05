//! Calls over an oracle that hands out listed answers.

use crate::readers::{answers_of, rows_of};
use items::Items;
use linear_terms::Row;
use posing::{Log, WorkError};
use question_examples::{Listed, exclusions, first_excluded};
use row_texts::Told;

/// Lists of rows, parted by bars.
fn lists_of(out: &mut Told, text: &str) -> Items<Items<Row>> {
    let mut lists = Items::new(out.alloc());
    for part in text.split('|') {
        let rows = rows_of(out, part);
        out.lose_unless(lists.push(rows).is_ok());
    }
    lists
}

fn show_log(out: &mut Told, log: &Log) {
    out.count("", log.answers.len());
    out.count(" taken, ", log.notes.len());
    out.word(" noted");
}

fn show_each_truth(out: &mut Told, made: &[bool]) {
    for holds in made {
        out.truth(*holds);
        out.word(", ");
    }
}

/// Whether each list of rows is infeasible. The last answer of the certificate file is handed out
/// first.
pub(crate) fn show_each(out: &mut Told, given: &str) {
    let (asked, answered) = out.halves(given, "\n");
    let lists = lists_of(out, asked);
    let mut oracle = Listed::new(answers_of(out, answered));
    show_exclusions(out, lists.as_slice(), &mut oracle);
}

fn show_exclusions(out: &mut Told, lists: &[Items<Row>], oracle: &mut Listed) {
    let mut log = Log::new(out.alloc());
    match exclusions(out.alloc(), lists, oracle, &mut log) {
        Ok(made) => show_each_truth(out, made.as_slice()),
        Err(_) => out.lose(),
    }
    show_log(out, &log);
}

fn show_place(out: &mut Told, made: Result<Option<usize>, WorkError>) {
    match made {
        Ok(Some(place)) => out.count("", place),
        Ok(None) => out.word("none"),
        Err(WorkError::Refused) => out.word("refused"),
        Err(_) => out.lose(),
    }
    out.word(", ");
}

/// The place of the first list that is infeasible.
pub(crate) fn show_first(out: &mut Told, given: &str) {
    let (asked, answered) = out.halves(given, "\n");
    let lists = lists_of(out, asked);
    let mut oracle = Listed::new(answers_of(out, answered));
    show_first_excluded(out, lists.as_slice(), &mut oracle);
}

fn show_first_excluded(out: &mut Told, lists: &[Items<Row>], oracle: &mut Listed) {
    let mut log = Log::new(out.alloc());
    let made = first_excluded(out.alloc(), lists, oracle, &mut log);
    show_place(out, made);
    show_log(out, &log);
}
