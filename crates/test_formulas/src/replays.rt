//! The oracle that hands out listed answers. Each question is one without rows, which every limit
//! of no further step passes, and no multipliers.
ghost use Rattle.std.specs.Prelude.{◌<◌, length};

use crate::ratios::show_ratio;
use crate::readers::answers_of;
use farkas_check::{Answer, AskError, Oracle, Question, Ratio};
use items::Items;
use row_texts::Told;
use wire::{ListedAnswers, share};

fn word(made: Result<Answer, AskError>) -> &'static str {
    match made {
        Ok(_) => "passes",
        Err(AskError::Refused) => "refused",
        Err(AskError::Memory) => "memory",
    }
}

/// What comes of the next question.
fn show_next(out: &mut Told, replay: &mut ListedAnswers) {
    let question = Question::Infeasible(Items::new(out.alloc()));
    out.word(word(replay.ask(out.alloc(), &question)));
}

/// What comes of two questions, and how many answers were taken and are left.
fn show_two(out: &mut Told, replay: &mut ListedAnswers) {
    show_next(out, replay);
    out.word(", ");
    show_next(out, replay);
    out.count("; ", replay.taken_count());
    out.count(" taken, ", replay.left_count());
    out.word(" left");
}

/// Two questions to the answers of a file in turn.
pub(crate) fn show_turns(out: &mut Told, file: &str) {
    let mut replay = ListedAnswers::new(answers_of(out, file));
    show_two(out, &mut replay);
}

/// Three questions to the first answer of a file, which is handed out twice.
pub(crate) fn show_twice(out: &mut Told, file: &str) {
    let answers = answers_of(out, file);
    if answers.is_empty() {
        out.lose();
    } else {
        show_first_twice(out, answers);
    }
}

fn show_first_twice(out: &mut Told, answers: Items<Answer>)
    requires { 0 < length answers }
{
    match Items::from_slice(out.alloc(), &[0, 0]) {
        Ok(order) => show_three(out, ListedAnswers::with_order(answers, order)),
        Err(_) => out.lose(),
    }
}

fn show_three(out: &mut Told, replay: ListedAnswers) {
    let mut replay = replay;
    show_two(out, &mut replay);
    out.word("; ");
    show_next(out, &mut replay);
}

fn show_multipliers(out: &mut Told, by: &[i128]) {
    out.word("yes");
    for number in by {
        out.word(" ");
        out.number(*number);
    }
}

fn show_point(out: &mut Told, point: &[Ratio]) {
    out.word("no");
    for number in point {
        out.word(" ");
        show_ratio(out, number);
    }
}

fn show_answer(out: &mut Told, answer: &Answer) {
    match answer {
        Answer::Yes(by) => show_multipliers(out, by.as_slice()),
        Answer::No(point) => show_point(out, point.as_slice()),
        _ => out.word("another"),
    }
    out.word("; ");
}

/// Answers, and the places of all.
fn show_order(out: &mut Told, distinct: &[Answer], order: &[usize]) {
    for answer in distinct {
        show_answer(out, answer);
    }
    out.word("order");
    for place in order {
        out.count(" ", *place);
    }
}

/// The answers of a file, each once, and the places of all.
pub(crate) fn show_shared(out: &mut Told, file: &str) {
    let answers = answers_of(out, file);
    match share(out.alloc(), answers) {
        Ok((distinct, order)) => show_order(out, distinct.as_slice(), order.as_slice()),
        Err(_) => out.lose(),
    }
}
