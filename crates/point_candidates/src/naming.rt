use linear_terms::{Col, Poly};
use std::alloc::{AllocError, Global};
use syntax_tree::{Proc, Program};

/// For each column of a procedure whether it has a name: the globals, the parameters and the named
/// locals, and the returned value as well.
pub(crate) fn naming(alloc: Global, program: &Program, p: &Proc) -> Result<Vec<bool>, AllocError> {
    let mut named = Vec::new(alloc);
    for _global in program.globals.as_slice() {
        named.push(true)?;
    }
    for column in p.columns.as_slice() {
        named.push(column.name.is_some())?;
    }
    named.push(true)?;
    Ok(named)
}

/// Whether all columns of the polynomial have names.
pub(crate) fn is_named(named: &[bool], poly: &Poly) -> bool {
    poly.terms()
        .iter()
        .all(|(mono, _)| are_named(named, mono.columns()))
}

fn are_named(named: &[bool], columns: &[Col]) -> bool {
    columns.iter().all(|col| is_named_column(named, *col))
}

fn is_named_column(named: &[bool], col: Col) -> bool {
    match col {
        Col::At(number) => has_mark(named, number as usize),
        Col::Aux(_) => false,
    }
}

fn has_mark(marks: &[bool], place: usize) -> bool {
    place < marks.len() && marks[place]
}
