//! The vocabularies of a program's procedures, and the terms that they compare.
ghost use Rattle.std.specs.Prelude.{◌<◌, length};
ghost use Rattle.syntax_tree.specs.WellFormed.{IsWellFormed};

use linear_terms::Poly;
use polyhedra::Vocabulary;
use row_texts::Told;
use std::alloc::AllocError;
use syntax_tree::Program;
use vocabularies::{entry, exit, full, harvest, pair, start};

/// The columns, those that are named, and the terms. There is no space at the end.
fn show_voc(out: &mut Told, voc: &Vocabulary) {
    out.place("", voc.columns());
    out.word(":");
    for number in voc.named_columns() {
        out.place(" ", *number);
    }
    let mut mark = ": ";
    if voc.harvested_terms().is_empty() {
        out.word(":");
    }
    for term in voc.harvested_terms() {
        out.word(mark);
        out.value(term);
        mark = " ; ";
    }
}

/// A line for a vocabulary.
fn show_made(out: &mut Told, kind: &str, made: Result<Vocabulary, AllocError>) {
    out.word(kind);
    match made {
        Ok(voc) => show_voc(out, &voc),
        Err(_) => out.lose(),
    }
}

/// The vocabularies of a procedure.
fn show_ends(out: &mut Told, program: &Program, proc: u32)
    requires formed { IsWellFormed program.now }
    requires there { proc < length program.now.procs }
{
    show_made(out, "full ", full(out.alloc(), program, proc));
    show_made(out, "\nentry ", entry(out.alloc(), program, proc));
    show_made(out, "\npair ", pair(out.alloc(), program, proc));
    show_made(out, "\nexit ", exit(out.alloc(), program, proc));
    out.word("\n");
}

/// The vocabularies of each procedure, and the first one.
pub(crate) fn show(out: &mut Told, program: &Program)
    requires { IsWellFormed program.now }
{
    for number in 0..program.procs.len() {
        show_ends(out, program, number as u32);
    }
    show_made(out, "start ", start(out.alloc(), program));
}

/// How many terms the one procedure of a program has, and the last of them.
pub(crate) fn show_terms(out: &mut Told, program: &Program) {
    if program.procs.len() != 1 {
        return out.lose();
    }
    match harvest(out.alloc(), program, 0) {
        Ok(terms) => show_last(out, terms.as_slice()),
        Err(_) => out.lose(),
    }
}

fn show_last(out: &mut Told, terms: &[Poly]) {
    out.count("", terms.len());
    out.word(" ");
    match terms.last() {
        Some(last) => out.value(last),
        None => out.lose(),
    }
}
