//! Worked rows for the libraries of graphs: how programs run, the flow graphs and the groups of
//! their procedures, the vocabularies of procedures, the formulas of edges, the paths of graphs,
//! and the trees of procedures. The rows of standard input have an empty line between two. A row is
//! a line with its kind and what belongs to it, and then the text of a C program or of a graph.
//! What is printed stands in `stdout` as another implementation gave it.
#![tactic(auto)]

mod ends;
mod graphs;
mod leaves;
mod links;
mod paths;
mod plans;
mod programs;
mod runs;
mod trees;

use row_texts::Told;
use std::io;
use syntax_tree::Program;

/// What a program comes to.
fn show_program(out: &mut Told, kind: &str, with: &str, program: &Program) {
    if !program.is_well_formed() {
        return out.lose();
    }
    match kind {
        "trace" => runs::show(out, program, with),
        "graph" => graphs::show_graph(out, program),
        "groups" => graphs::show_groups(out, program),
        "ends" => ends::show(out, program),
        "terms" => ends::show_terms(out, program),
        "edges" => leaves::show(out, program, with),
        "trees" => trees::show(out, program, with),
        _ => out.lose(),
    }
}

/// What the program of a text comes to.
fn show_text(out: &mut Told, kind: &str, with: &str, text: &str) {
    match programs::program_of(out.alloc(), text) {
        Some(program) => show_program(out, kind, with, &program),
        None => out.lose(),
    }
}

/// The graph of the procedure `f`, which stands between the global `x` and `main`.
fn show_procedure(out: &mut Told, procedure: &str) {
    let mut text = Told::new(out.alloc());
    text.word("int x; ");
    text.word(procedure);
    text.word(" void main(void) {}");
    show_text(out, "graph", "", text.text());
}

/// What a row of a kind comes to.
fn show_kind(out: &mut Told, kind: &str, with: &str, given: &str) {
    match kind {
        "graph" => show_procedure(out, given),
        "literal" => leaves::show_literal(out, given),
        "plain" => paths::show_plain(out, given),
        "reach" => paths::show_reach(out, given, with),
        "plan" => plans::show(out, given),
        _ => show_text(out, kind, with, given),
    }
}

/// What a row comes to; a heading stays as it is.
fn show_row(out: &mut Told, row: &str) {
    if row.starts_with('#') {
        return out.word(row);
    }
    let (head, given) = out.halves(row, "\n");
    match head.split_once(' ') {
        Some((kind, with)) => show_kind(out, kind, with, given),
        None => show_kind(out, head, "", given),
    }
}

fn call_laws() {
    runs::laws_of_executions();
    runs::laws_of_traces();
    graphs::laws();
    leaves::laws();
    paths::laws();
    plans::laws();
    trees::laws();
}

fn main(rt: HostRuntime) -> io::Result<()> {
    call_laws();
    let text = io::read_to_string(rt.alloc(), rt.stdin())?;
    for row in text.as_str().split("\n\n") {
        let mut out = Told::new(rt.alloc());
        show_row(&mut out, row.trim());
        println!(rt; "{}", out.text())?;
    }
    Ok(())
}
