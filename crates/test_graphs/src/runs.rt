//! Traces of programs on values.
ghost use Rattle.syntax_tree.specs.WellFormed.{IsWellFormed};

use execution::{
    Event, chosen_execution_steps, chosen_execution_stops, columns_determine_step, executions_join,
    failed_check_stops, frames_below_stay, globals_stay, step_is_determined, straight_lines_run,
    worked_examples_run,
};
use items::Items;
use replay::{
    Trace, TraceStop, choices_take_values, chosen_is_an_execution, failed_stop_fails, follow,
    traces_are_determined,
};
use row_texts::Told;
use syntax_tree::{Op, Program};

fn show_call(out: &mut Told, proc: u32, args: &[i128]) {
    out.place("call ", proc);
    out.word("(");
    let mut mark = "";
    for value in args {
        out.word(mark);
        out.number(*value);
        mark = ", ";
    }
    out.word(")");
}

/// A word and a number.
fn show_numbered(out: &mut Told, word: &str, number: i128) {
    out.word(word);
    out.number(number);
}

fn show_return(out: &mut Told, proc: u32, value: i128) {
    out.place("return ", proc);
    show_numbered(out, " ", value);
}

fn show_event(out: &mut Told, event: &Event) {
    match event {
        Event::Call { proc, args } => show_call(out, *proc, args.as_slice()),
        Event::Any(value) => show_numbered(out, "any ", *value),
        Event::Holds(number) => out.place("holds ", *number),
        Event::Return { proc, value } => show_return(out, *proc, *value),
    }
    out.word("; ");
}

fn mark(op: Op) -> &'static str {
    match op {
        Op::Add => " + ",
        Op::Sub => " - ",
        Op::Mul => " * ",
        Op::Div => " / ",
        _ => " another ",
    }
}

fn show_stop(out: &mut Told, stop: TraceStop) {
    match stop {
        TraceStop::Done(value) => show_numbered(out, "done ", value),
        TraceStop::Failed(number) => out.place("failed ", number),
        TraceStop::Guard => out.word("guard"),
        TraceStop::Zero => out.word("zero"),
        TraceStop::Dry => out.word("dry"),
        TraceStop::Wide { left, right, op } => {
            show_numbered(out, "wide ", left);
            show_numbered(out, mark(op), right);
        }
        TraceStop::Spent => out.word("spent"),
    }
}

/// What the steps show, why there are no more, and how many.
fn show_trace(out: &mut Told, trace: &Trace) {
    for event in trace.events.as_slice() {
        show_event(out, event);
    }
    show_stop(out, trace.stop);
    out.place(" after ", trace.steps);
}

/// The values behind the number of turns.
fn values_of(out: &mut Told, numbers: &str) -> Items<i128> {
    let mut values = Items::new(out.alloc());
    for word in numbers.split(' ').skip(1) {
        let value = out.number_of(word);
        out.lose_unless(values.push(value).is_ok());
    }
    values
}

/// The trace of a program, for a number of turns and values that have a blank between two.
pub(crate) fn show(out: &mut Told, program: &Program, numbers: &str)
    requires { IsWellFormed program.now }
{
    let turns = out.small_number_of(numbers.split(' ').next().unwrap_or(""));
    let values = values_of(out, numbers);
    match follow(out.alloc(), program, values.as_slice(), turns) {
        Ok(trace) => show_trace(out, &trace),
        Err(_) => out.lose(),
    }
}

pub(crate) fn laws_of_executions() {
    executions_join();
    step_is_determined();
    columns_determine_step();
    failed_check_stops();
    frames_below_stay();
    globals_stay();
    straight_lines_run();
    chosen_execution_steps();
    chosen_execution_stops();
    worked_examples_run();
}

pub(crate) fn laws_of_traces() {
    chosen_is_an_execution();
    choices_take_values();
    failed_stop_fails();
    traces_are_determined();
}
