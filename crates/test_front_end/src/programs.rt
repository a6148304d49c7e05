//! Programs of texts, and why texts with a tree have none.
use crate::program_text::{show_fault, show_program};
use crate::trees::tree_of;
use row_texts::Told;
use std::alloc::Global;
use syntax_tree::{Program, count_nodes};
use typing::{TypeError, elaborate, elaborations_are_answered, elaborations_are_unique};

/// The program of a text, or the fault that is told of it. A text without a tree has none, as where
/// memory is wanting.
pub(crate) fn program_of(alloc: Global, text: &[u8]) -> Result<Program, TypeError> {
    let length = u32::try_from(text.len()).unwrap_or(u32::MAX);
    match tree_of(alloc, text) {
        Ok(tree) => elaborate(alloc, &tree, length),
        Err(_) => Err(TypeError::Memory),
    }
}

/// The program, by a copy of it, which has to be equal, and well formed.
fn show_copy(out: &mut Told, alloc: Global, program: &Program) {
    match program.copy(alloc) {
        Ok(copy) if copy == *program && copy.is_well_formed() => show_program(out, &copy),
        _ => out.lose(),
    }
}

/// The program of a text that has a tree, or the fault that is told of it.
pub(crate) fn show_text(out: &mut Told, alloc: Global, text: &[u8]) {
    match program_of(alloc, text) {
        Ok(program) => show_copy(out, alloc, &program),
        Err(fault) => show_fault(out, fault),
    }
}

/// How many nodes the first procedure of a program has.
fn show_first_nodes(out: &mut Told, program: &Program) {
    match program.procs.as_slice() {
        [first, ..] => out.number(count_nodes(first.body.as_slice()) as i128),
        [] => out.lose(),
    }
}

/// How many nodes the first procedure of a text has.
pub(crate) fn show_nodes(out: &mut Told, alloc: Global, text: &[u8]) {
    match program_of(alloc, text) {
        Ok(program) => show_first_nodes(out, &program),
        Err(_) => out.lose(),
    }
}

pub(crate) fn laws() {
    elaborations_are_unique();
    elaborations_are_answered();
}
