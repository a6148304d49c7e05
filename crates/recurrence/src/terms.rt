ghost use Rattle.std.specs.Prelude.{◌≡◌, ℤ, List, Ok, map, Result, IfOk};
ghost use Rattle.items.specs.Gives.{Gives};
ghost use Rattle.linear_terms.specs.declared.col.Col.{Col};
ghost use Rattle.linear_terms.specs.declared.col.Col.TheVariants.{At};
ghost use Rattle.linear_terms.specs.Expressions.{Made, ◌⊞◌, whole, all_of, combination, linear};
ghost use Rattle.linear_terms.specs.Polynomial.{column_of};
ghost use Rattle.linear_terms.specs.TermError.{cause};
ghost use Rattle.recurrence.specs.Strata.{part, steady, term_of, has_terms};
ghost use Rattle.recurrence.specs.Words.{Ascend, Rise};

use farkas_check::Relation;
use items::Items;
use linear_terms::{Col, Poly, TermError, add, combination};
use polyhedra::entries_of;
use std::alloc::{AllocError, Global};

/// A sequence along the turns, over the state in which they start: its number there and its first
/// four differences.
#[derive(Drop)]
pub(crate) struct Recurrence {
    pub(crate) start: Poly,
    pub(crate) first: Result<Poly, TermError>,
    pub(crate) second: Result<Poly, TermError>,
    pub(crate) third: Result<Poly, TermError>,
    pub(crate) fourth: Result<Poly, TermError>,
}

/// A term, by the relation that determines its change.
#[derive(Drop)]
pub(crate) struct StratumTerm {
    pub(crate) relation: Relation,
    pub(crate) recurrence: Recurrence,
}

/// The terms of a body, by strata.
#[derive(Drop)]
pub(crate) struct Strata {
    pub(crate) first: Items<StratumTerm>,
    pub(crate) second: Items<StratumTerm>,
    pub(crate) third: Items<StratumTerm>,
}

/// Parts of a recurrence.
#[derive(Clone, Copy)]
pub(crate) enum RecurrencePart {
    Start,
    First,
    Second,
    Third,
}

impl Clone for Recurrence {
    ghost is_clone = { λ a b. b ≡ a };

    fn clone(&self) -> Result<Recurrence, AllocError> {
        let start = self.start.clone()?;
        let first = copy_of(&self.first)?;
        let second = copy_of(&self.second)?;
        let third = copy_of(&self.third)?;
        let fourth = copy_of(&self.fourth)?;
        Ok(Recurrence {
            start,
            first,
            second,
            third,
            fourth,
        })
    }
}

impl Clone for StratumTerm {
    ghost is_clone = { λ a b. b ≡ a };

    fn clone(&self) -> Result<StratumTerm, AllocError> {
        let relation = self.relation.clone()?;
        let recurrence = self.recurrence.clone()?;
        Ok(StratumTerm {
            relation,
            recurrence,
        })
    }
}

fn copy_of(made: &Result<Poly, TermError>) -> Result<Result<Poly, TermError>, AllocError>
    ensures { IfOk result (λ copy. copy ≡ made.now) }
{
    match made {
        Ok(poly) => {
            let copy = poly.clone()?;
            Ok(Ok(copy))
        }
        Err(error) => Ok(Err(*error)),
    }
}

/// A column that no turn changes.
pub(crate) fn steady(alloc: Global, v: u32) -> Result<Recurrence, AllocError>
    ensures { IfOk result (λ r. r ≡ steady v) }
{
    let start = column(alloc, Col::At(v))?;
    Ok(Recurrence {
        start,
        first: Ok(Poly::constant(alloc, 0)),
        second: Ok(Poly::constant(alloc, 0)),
        third: Ok(Poly::constant(alloc, 0)),
        fourth: Ok(Poly::constant(alloc, 0)),
    })
}

/// One column.
pub(crate) fn column(alloc: Global, col: Col) -> Result<Poly, AllocError>
    ensures { IfOk result (λ p. p ≡ column_of col) }
{
    match Poly::column(alloc, col) {
        Ok(poly) => Ok(poly),
        Err(_memory) => Err(AllocError),
    }
}

/// The term of a relation between the changes of variables and lower terms.
pub(crate) fn term_of(
    alloc: Global,
    variables: &[u32],
    lower: &[Recurrence],
    relation: Relation,
) -> Result<StratumTerm, AllocError>
    requires { Rise variables.now }
    ensures { IfOk result (λ t. t ≡ term_of variables.now lower.now relation) }
{
    let recurrence = recurrence_of(alloc, variables, lower, &relation)?;
    Ok(StratumTerm {
        relation,
        recurrence,
    })
}

/// The sequence of the term of a relation.
fn recurrence_of(
    alloc: Global,
    variables: &[u32],
    lower: &[Recurrence],
    relation: &Relation,
) -> Result<Recurrence, AllocError>
    requires { Rise variables.now }
    ensures { IfOk result (λ r. r ≡ (term_of variables.now lower.now relation.now).recurrence) }
{
    let start = start_of(alloc, variables, relation.a.as_slice())?;
    let first = term_or_step(first_of(alloc, lower, relation))?;
    let second = term_or_step(combined_part(
        alloc,
        RecurrencePart::First,
        lower,
        relation.b.as_slice(),
    ))?;
    let third = term_or_step(combined_part(
        alloc,
        RecurrencePart::Second,
        lower,
        relation.b.as_slice(),
    ))?;
    let fourth = term_or_step(combined_part(
        alloc,
        RecurrencePart::Third,
        lower,
        relation.b.as_slice(),
    ))?;
    Ok(Recurrence {
        start,
        first,
        second,
        third,
        fourth,
    })
}

/// Its number where the turns start: numbers times the entry columns of variables.
fn start_of(alloc: Global, variables: &[u32], numbers: &[i128]) -> Result<Poly, AllocError>
    requires { Rise variables.now }
    ensures { IfOk result (λ p. p ≡ linear numbers.now (map (λ v. At v) variables.now)) }
{
    let entries = entries_of(alloc, variables)?;
    linear(alloc, numbers, entries.as_slice())
}

/// The linear polynomial that has numbers at columns, which stand in print order. No step of it
/// leaves 128 bits.
fn combination_of_columns(
    alloc: Global,
    numbers: &[i128],
    columns: &[Poly],
) -> Result<Poly, TermError>
    ensures { (cs : List Col) → Ascend cs → columns.now ≡ map column_of cs
        → Gives cause (λ p. p) result (Ok (linear numbers.now cs)) }
{
    match combination(alloc, numbers, columns) {
        Ok(poly) => Ok(poly),
        Err(TermError::Wide { left, right, times }) => Err(TermError::Wide { left, right, times }),
        Err(TermError::Degree) => Err(TermError::Degree),
        Err(TermError::Memory) => Err(TermError::Memory),
    }
}

/// The linear polynomial that has numbers at columns, which stand in print order; its one error is
/// want of memory.
pub(crate) fn linear(alloc: Global, numbers: &[i128], columns: &[Poly]) -> Result<Poly, AllocError>
    ensures { (cs : List Col) → Ascend cs → columns.now ≡ map column_of cs
        → IfOk result (λ p. p ≡ linear numbers.now cs) }
{
    match combination_of_columns(alloc, numbers, columns) {
        Ok(poly) => Ok(poly),
        Err(_memory) => Err(AllocError),
    }
}

/// What is made, or the step that cannot be made; want of memory is an error here.
pub(crate) fn term_or_step(
    made: Result<Poly, TermError>,
) -> Result<Result<Poly, TermError>, AllocError>
    ensures { (stated : Made) → Gives cause (λ p. p) made stated
        → IfOk result (λ kept. kept ≡ stated) }
{
    match made {
        Ok(poly) => Ok(Ok(poly)),
        Err(TermError::Memory) => Err(AllocError),
        Err(error) => Ok(Err(error)),
    }
}

/// The first difference: numbers times lower terms, and a constant.
fn first_of(alloc: Global, lower: &[Recurrence], relation: &Relation) -> Result<Poly, TermError>
    ensures { Gives cause (λ p. p) result
        (combination relation.now.b (map (λ l. Ok l.start) lower.now) ⊞ whole relation.now.c) }
{
    let of_lower = combined_part(alloc, RecurrencePart::Start, lower, relation.b.as_slice())?;
    add(alloc, &of_lower, &Poly::constant(alloc, relation.c))
}

/// Numbers times a part of each lower term.
fn combined_part(
    alloc: Global,
    which: RecurrencePart,
    lower: &[Recurrence],
    numbers: &[i128],
) -> Result<Poly, TermError>
    ensures { Gives cause (λ p. p) result (combination numbers.now (map (part which) lower.now)) }
{
    let parts = parts_of(alloc, which, lower)?;
    combination(alloc, numbers, parts.as_slice())
}

fn parts_of(
    alloc: Global,
    which: RecurrencePart,
    lower: &[Recurrence],
) -> Result<Items<Poly>, TermError>
    ensures { Gives cause (λ ps. ps) result (all_of (map (part which) lower.now)) }
{
    let mut parts = Items::new(alloc);
    for recurrence in lower {
        parts.push(part_of(which, recurrence)?)?;
    }
    Ok(parts)
}

fn part_of(which: RecurrencePart, recurrence: &Recurrence) -> Result<Poly, TermError>
    ensures { Gives cause (λ p. p) result (part which recurrence.now) }
{
    match which {
        RecurrencePart::Start => {
            let start = recurrence.start.clone()?;
            Ok(start)
        }
        RecurrencePart::First => copy_of(&recurrence.first)?,
        RecurrencePart::Second => copy_of(&recurrence.second)?,
        RecurrencePart::Third => copy_of(&recurrence.third)?,
    }
}

/// Whether some variable has a number.
pub(crate) fn has_terms(relation: &Relation) -> bool
    ensures { result ≡ has_terms relation.now }
{
    relation.a.iter().any(|n| *n != 0)
}
