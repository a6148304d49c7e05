ghost use Rattle.std.specs.Prelude.{◌≡◌, ◌<◌, ◌^◌, map, length, IfOk};
ghost use Rattle.std.specs.List.{range_with_len};
ghost use Rattle.items.specs.Gives.{Gives};
ghost use Rattle.linear_terms.specs.Expressions.{Made, or_zero};
ghost use Rattle.linear_terms.specs.Polynomial.{column_of};
ghost use Rattle.linear_terms.specs.TermError.{cause};
ghost use Rattle.polyhedra.specs.Squash.{after_from, change_after, entries_of};

use items::Items;
use linear_terms::{Col, Poly, TermError, difference};
use std::alloc::{AllocError, Global};

/// A polynomial for each variable afterwards: auxiliaries for those that are modified, in order;
/// for another its entry column where both ends have one vocabulary, else 0.
pub fn posts_after(
    alloc: Global,
    one: bool,
    modified: &[u32],
    to: u32,
) -> Result<Items<Poly>, AllocError>
    requires { length modified.now < 2 ^ 32 }
    ensures { IfOk result
        (λ posts. posts ≡ map (after_from one 0 modified.now) (range_with_len 0 to)) }
{
    let mut posts = Items::new(alloc);
    for v in 0..to {
        posts.push(post_after(alloc, one, modified, v)?)?;
    }
    Ok(posts)
}

/// A polynomial for the change of each variable.
pub fn changes_after(
    alloc: Global,
    one: bool,
    modified: &[u32],
    to: u32,
) -> Result<Items<Poly>, AllocError>
    requires { length modified.now < 2 ^ 32 }
    ensures { IfOk result
        (λ changes. changes ≡ map (change_after one modified.now) (range_with_len 0 to)) }
{
    let mut changes = Items::new(alloc);
    for v in 0..to {
        changes.push(change_after(alloc, one, modified, v)?)?;
    }
    Ok(changes)
}

/// A polynomial for the change of each of some variables.
pub(crate) fn changes_of_some(
    alloc: Global,
    one: bool,
    modified: &[u32],
    some: &[u32],
) -> Result<Items<Poly>, AllocError>
    requires { length modified.now < 2 ^ 32 }
    ensures { IfOk result (λ changes. changes ≡ map (change_after one modified.now) some.now) }
{
    let mut changes = Items::new(alloc);
    for v in some {
        changes.push(change_after(alloc, one, modified, *v)?)?;
    }
    Ok(changes)
}

/// The entry columns of some variables.
pub fn entries_of(alloc: Global, variables: &[u32]) -> Result<Items<Poly>, AllocError>
    ensures { IfOk result (λ entries. entries ≡ entries_of variables.now) }
{
    let mut entries = Items::new(alloc);
    for v in variables {
        entries.push(column(alloc, Col::At(*v))?)?;
    }
    Ok(entries)
}

fn post_after(alloc: Global, one: bool, modified: &[u32], v: u32) -> Result<Poly, AllocError>
    requires { length modified.now < 2 ^ 32 }
    ensures { IfOk result (λ p. p ≡ after_from one 0 modified.now v) }
{
    for (n, u) in modified.iter().enumerate() {
        if *u == v {
            return column(alloc, Col::Aux(n as u32));
        }
    }
    if one {
        column(alloc, Col::At(v))
    } else {
        Ok(Poly::constant(alloc, 0))
    }
}

fn change_after(alloc: Global, one: bool, modified: &[u32], v: u32) -> Result<Poly, AllocError>
    requires { length modified.now < 2 ^ 32 }
    ensures { IfOk result (λ p. p ≡ change_after one modified.now v) }
{
    let post = post_after(alloc, one, modified, v)?;
    if !one {
        return Ok(post);
    }
    let entry = column(alloc, Col::At(v))?;
    or_zero(alloc, difference(alloc, &post, &entry))
}

/// What could be made, or else 0; want of memory is an error here too.
fn or_zero(alloc: Global, made: Result<Poly, TermError>) -> Result<Poly, AllocError>
    ensures { (stated : Made) → Gives cause (λ p. p) made stated
        → IfOk result (λ p. p ≡ or_zero stated) }
{
    match made {
        Ok(poly) => Ok(poly),
        Err(TermError::Memory) => Err(AllocError),
        Err(_lost) => Ok(Poly::constant(alloc, 0)),
    }
}

/// One column.
pub(crate) fn column(alloc: Global, col: Col) -> Result<Poly, AllocError>
    ensures { IfOk result (λ p. p ≡ column_of col) }
{
    match Poly::column(alloc, col) {
        Ok(poly) => Ok(poly),
        Err(_memory) => Err(AllocError),
    }
}
