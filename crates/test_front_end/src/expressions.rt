//! Expressions: their values, their counts; and names.
use crate::programs::program_of;
use crate::words::op_text;
use items::Items;
use row_texts::Told;
use std::alloc::{AllocError, Global};
use syntax_tree::{
    Core, EvalWide, Name, Program, Stmt, count_cases, count_operators, eval, has_columns_below,
    joint_cases,
};

/// The expression that the first statement of a program sets a column to.
fn expression_of(program: &Program) -> Option<&Core> {
    let main = program.procs.as_slice().first()?;
    match main.body.as_slice().first()? {
        Stmt::Set { value, .. } => Some(value),
        _ => None,
    }
}

/// What is told of an expression over one variable, which a program returns.
pub(crate) fn show_text(out: &mut Told, alloc: Global, kind: &str, text: &[u8]) {
    let mut whole = Told::new(alloc);
    whole.word("int x;int main(void){return ");
    whole.letters(text);
    whole.word(";}");
    match program_of(alloc, whole.text().as_bytes()) {
        Ok(program) => show_first(out, alloc, kind, &program),
        Err(_) => out.lose(),
    }
}

fn show_first(out: &mut Told, alloc: Global, kind: &str, program: &Program) {
    match expression_of(program) {
        Some(e) => show_expression(out, alloc, kind, e),
        None => out.lose(),
    }
}

fn show_expression(out: &mut Told, alloc: Global, kind: &str, e: &Core) {
    match kind {
        "value" => show_value(out, e),
        "cases" => show_cases(out, e),
        _ => show_joint(out, alloc, e),
    }
}

/// The value of an expression where the variable is 0, or what stops its evaluation.
fn show_value(out: &mut Told, e: &Core) {
    let state = [0i128, 0];
    if !has_columns_below(e, state.len()) {
        return out.lose();
    }
    match eval(e, &state) {
        Ok(Some(value)) => out.number(value),
        Ok(None) => out.word("none"),
        Err(wide) => show_wide(out, &wide),
    }
}

fn show_wide(out: &mut Told, wide: &EvalWide) {
    out.word("wide ");
    out.number(wide.left);
    out.word(" ");
    out.word(op_text(wide.op));
    out.word(" ");
    out.number(wide.right);
}

/// How many columns an expression needs, of at most 64.
fn width_of(e: &Core) -> usize {
    (0..64usize)
        .find(|width| has_columns_below(e, *width))
        .unwrap_or(64)
}

/// The cases of an expression, its operators, and how many columns it needs.
fn show_cases(out: &mut Told, e: &Core) {
    let cases = count_cases(e);
    out.count("value ", cases.value);
    out.count(" truth ", cases.truth);
    out.count(" falsity ", cases.falsity);
    out.count(" operators ", count_operators(e));
    out.count(" columns ", width_of(e));
}

/// The cases of a list with an expression twice, and a number between.
fn show_joint(out: &mut Told, alloc: Global, e: &Core) {
    match doubled_expression(alloc, e) {
        Ok(list) => out.count("", joint_cases(list.as_slice())),
        Err(_) => out.lose(),
    }
}

/// An expression twice, and a number between.
fn doubled_expression(alloc: Global, e: &Core) -> Result<Items<Core>, AllocError> {
    let mut list = Items::new(alloc);
    list.push(e.copy(alloc)?)?;
    list.push(Core::Lit(1))?;
    list.push(e.copy(alloc)?)?;
    Ok(list)
}

/// The name that a text is, if it is one.
pub(crate) fn show_name(out: &mut Told, alloc: Global, text: &[u8]) {
    match Items::from_slice(alloc, text) {
        Ok(letters) => show_named(out, &Name::new(letters)),
        Err(_) => out.lose(),
    }
}

fn show_named(out: &mut Told, name: &Option<Name>) {
    match name {
        Some(name) => out.letters(name.as_slice()),
        None => out.word("none"),
    }
}
