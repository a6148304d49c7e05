//! Vocabularies without terms, and the directions of one.
ghost use Rattle.std.specs.Prelude.{◌≡◌, ◌∷◌, [], IfOk};
ghost use Rattle.std.specs.List.{range_with_len};
ghost use Rattle.polyhedra.specs.Vocabulary.{Vocabulary};

use items::Items;
use linear_terms::Poly;
use polyhedra::{Vocabulary, directions};
use polynomial_texts::PolynomialError;
use row_texts::Told;
use std::alloc::{AllocError, Global};

/// The first of so many columns are named.
pub(crate) fn first_named(
    alloc: Global,
    columns: u32,
    count: u32,
    rule: u32,
) -> Result<Vocabulary, PolynomialError> {
    if count > columns {
        return Err(PolynomialError::Malformed);
    }
    let named = numbers_below(alloc, count)?;
    Ok(Vocabulary::from_parts(columns, named, Items::new(alloc), rule, Items::new(alloc)))
}

fn numbers_below(alloc: Global, count: u32) -> Result<Items<u32>, AllocError>
    ensures { IfOk result (λ numbers. numbers ≡ range_with_len 0 count) }
{
    let mut numbers = Items::new(alloc);
    for n in 0..count {
        numbers.push(n)?;
    }
    Ok(numbers)
}

/// The first and the last of three columns are named.
fn two_of_three(alloc: Global) -> Result<Vocabulary, AllocError> {
    let named = Items::from_slice(alloc, &[0, 2])?;
    Ok(Vocabulary::from_parts(3, named, Items::new(alloc), 1, Items::new(alloc)))
}

/// The directions of the first and the last of three columns.
pub(crate) fn show_directions(out: &mut Told) {
    match two_of_three(out.alloc()) {
        Ok(voc) => show_directions_of(out, &voc),
        Err(_) => out.lose(),
    }
}

fn show_directions_of(out: &mut Told, voc: &Vocabulary) {
    match directions(out.alloc(), voc) {
        Ok(made) => show_each(out, made.as_slice()),
        Err(_) => out.lose(),
    }
}

fn show_each(out: &mut Told, directions: &[Poly]) {
    for direction in directions {
        out.value(direction);
        out.word(" ;");
    }
}
