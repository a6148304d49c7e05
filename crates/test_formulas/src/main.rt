//! Worked rows of formulas: what the operations on polynomials, the closed forms and the formulas
//! come to on examples, what the calls on polyhedra come to on small formulas under listed answers,
//! by how much cases change a global, what the test says of an answer, what the simplex method
//! answers, which questions are narrow, sums and products of ratios, reduced bases, and what is
//! read and written of the files that hold answers. The rows of standard input have an empty line
//! between two. A row of one line is its kind, a colon and what is given to the operation; a row of
//! more lines has its kind in the first. The rows of a question are parted by semicolons; what
//! stands after a colon belongs to the same case, and `%` parts cases. What is printed stands in
//! `stdout` as another implementation, a model of the rules or a reader gave it. No clause says
//! these.
#![tactic(auto)]

mod bases;
mod call_rows;
mod calls;
mod certificates;
mod closed_forms;
mod columns;
mod costs;
mod exclusions;
mod faults;
mod formulas;
mod inputs;
mod logs;
mod numbered;
mod parts;
mod polynomials;
mod questions;
mod ratios;
mod readers;
mod replays;
mod scripts;
mod searches;
mod texts;
mod verdicts;
mod vocabularies;

use closed_form::forward_differences;
use row_texts::Told;
use std::io;

/// What a row comes to. A heading stays as it is.
fn show_row(out: &mut Told, row: &str) {
    if row.starts_with('#') {
        return out.word(row);
    }
    match row.split_once('\n') {
        Some((head, rest)) => show_lines(out, head, rest),
        None => show_line(out, row),
    }
}

/// What a row of more lines comes to.
fn show_lines(out: &mut Told, head: &str, rest: &str) {
    match head {
        "certificate" => certificates::show_certificate(out, rest),
        "written" => certificates::show_written(out, rest),
        "script" => scripts::show(out, rest),
        "input" => inputs::show(out, rest),
        "in turn" => replays::show_turns(out, rest),
        "twice" => replays::show_twice(out, rest),
        "shared" => replays::show_shared(out, rest),
        "infeasible" | "supremum" | "stratum" => verdicts::show(out, head, rest),
        _ => show_numbers(out, head, rest),
    }
}

/// What a row of ratios, of a search or of listed answers comes to.
fn show_numbers(out: &mut Told, head: &str, rest: &str) {
    match head {
        "lowest terms" => ratios::show_lowest(out, rest),
        "ratios" => ratios::show_ratios(out, rest),
        "reduced" => bases::show_reduced(out, rest),
        "search of rows" => searches::show_rows(out, rest),
        "search of a supremum" => searches::show_supremum(out, rest),
        "search of relations" => searches::show_relations(out, rest),
        "relations of a narrow question" => searches::show_narrow_relations(out, rest),
        "narrow" => searches::show_narrow(out, rest),
        "each list" => exclusions::show_each(out, rest),
        "first list" => exclusions::show_first(out, rest),
        _ => call_rows::show(out, head, rest),
    }
}

/// What a row of one line comes to.
fn show_line(out: &mut Told, row: &str) {
    if row == "directions" {
        return vocabularies::show_directions(out);
    }
    let (kind, given) = out.halves(row, ":");
    show_kind(out, kind, given.trim());
}

/// What a row of a kind comes to.
fn show_kind(out: &mut Told, kind: &str, given: &str) {
    match kind {
        "closed form" => closed_forms::show_closed_form(out, given),
        "sum bound" => closed_forms::show_sum_bound(out, given),
        "order" => formulas::show_order(out, given),
        "sequence" => formulas::show_sequence(out, given),
        "choice" => formulas::show_choice(out, given),
        "hidden" | "posts" | "entries" | "raised" | "equated" | "copy" => {
            columns::show(out, kind, given)
        }
        "same" => columns::show_sameness(out, given),
        "fitted" => columns::show_fitness(out, given),
        "cost" => costs::show(out, given),
        "monomial" | "parts" | "equal rows" | "equal cases" => parts::show(out, kind, given),
        _ => polynomials::show(out, kind, given),
    }
}

fn main(rt: HostRuntime) -> io::Result<()> {
    forward_differences();
    let text = io::read_to_string(rt.alloc(), rt.stdin())?;
    for row in text.as_str().split("\n\n") {
        let mut out = Told::new(rt.alloc());
        show_row(&mut out, row.trim());
        println!(rt; "{}", out.text())?;
    }
    Ok(())
}
