ghost use Rattle.std.specs.Prelude.{◌≡◌, length, map, All, IfOk};
ghost use Rattle.items.specs.Gives.{Gives};
ghost use Rattle.linear_terms.specs.Replacement.{IsBelow};
ghost use Rattle.linear_terms.specs.TermError.{cause};
ghost use Rattle.polyhedra.specs.Bounds.{IsCovered};
ghost use Rattle.recurrence.specs.Products.{growth, grown, sequence_of, sequences};
ghost use Rattle.recurrence.specs.Words.{IsClosed, AreCovered, IsCoveredIfMade};

use crate::solving::{columns_after_turn, known_products};
use crate::terms::{Recurrence, term_or_step};
use items::Items;
use linear_terms::{Mono, Poly, TermError, difference, subst};
use std::alloc::{AllocError, Global};

/// The products of known columns as sequences along the turns.
pub(crate) fn sequences(
    alloc: Global,
    known: &[Option<Poly>],
    products: &[Mono],
) -> Result<Items<Recurrence>, AllocError>
    requires { IsClosed known.now }
    ensures { IfOk result (λ made. made ≡ sequences known.now products.now) }
{
    let monos = known_products(alloc, known, products)?;
    let next = columns_after_turn(alloc, known)?;
    sequences_of(alloc, next.as_slice(), monos.as_slice())
}

fn sequences_of(
    alloc: Global,
    next: &[Poly],
    monos: &[Mono],
) -> Result<Items<Recurrence>, AllocError>
    requires covered { AreCovered next.now }
    requires below { All (λ m. All (IsBelow (length next.now) 0) m) monos.now }
    ensures { IfOk result (λ made. made ≡ map (sequence_of next.now) monos.now) }
{
    let mut made = Items::new(alloc);
    for mono in monos {
        made.push(sequence_of(alloc, next, mono)?)?;
    }
    Ok(made)
}

/// A product, and its differences.
fn sequence_of(alloc: Global, next: &[Poly], mono: &Mono) -> Result<Recurrence, AllocError>
    requires covered { AreCovered next.now }
    requires below { All (IsBelow (length next.now) 0) mono.now }
    ensures { IfOk result (λ r. r ≡ sequence_of next.now mono.now) }
{
    let start = Poly::monomial(alloc, *mono)?;
    let first = term_or_step(growth(alloc, next, &start))?;
    let second = term_or_step(next_growth(alloc, next, &first))?;
    let third = term_or_step(next_growth(alloc, next, &second))?;
    let fourth = term_or_step(next_growth(alloc, next, &third))?;
    Ok(Recurrence {
        start,
        first,
        second,
        third,
        fourth,
    })
}

/// By how much a turn changes a difference that can be made.
fn next_growth(
    alloc: Global,
    next: &[Poly],
    made: &Result<Poly, TermError>,
) -> Result<Poly, TermError>
    requires covered { AreCovered next.now }
    requires below { IsCoveredIfMade (length next.now) made.now }
    ensures { Gives cause (λ p. p) result (grown next.now made.now) }
{
    match made {
        Ok(poly) => growth(alloc, next, poly),
        Err(error) => Err(*error),
    }
}

/// By how much a turn changes a polynomial.
fn growth(alloc: Global, next: &[Poly], poly: &Poly) -> Result<Poly, TermError>
    requires covered { AreCovered next.now }
    requires below { IsCovered (length next.now) poly.now }
    ensures { Gives cause (λ p. p) result (growth next.now poly.now) }
{
    let after = subst(alloc, poly, next, &[])?;
    difference(alloc, &after, poly)
}
