ghost use Rattle.std.specs.Prelude.{◌≡◌, ◌&&◌, [], map, fold, None, Some, Ok, pos, IfOk, slice_get, unwrap_or, if◌then◌else◌};
ghost use Rattle.std.specs.List.{list_all, range_with_len};
ghost use Rattle.std.specs.Option.{option_copied};
ghost use Rattle.std.specs.Ordering.{int_eq};
ghost use Rattle.items.specs.Gives.{Gives};
ghost use Rattle.linear_terms.specs.declared.col.Col.TheVariants.{At};
ghost use Rattle.linear_terms.specs.Expressions.{◌⊞◌, column};
ghost use Rattle.linear_terms.specs.Polynomial.{constant_of, column_of};
ghost use Rattle.linear_terms.specs.TermError.{cause};
ghost use Rattle.transition_formula.specs.Transition.{every_column};
ghost use Rattle.recurrence.specs.Products.{is_known, is_open, sole, with_next, with_change, with_term, known_products, columns_after_turn};
ghost use Rattle.recurrence.specs.Words.{is_among, unmodified_columns_by};

use crate::progressions::are_zero;
use crate::stratifying::is_among;
use crate::terms::{StratumTerm, column, term_or_step};
use items::Items;
use linear_terms::{Col, Mono, Poly, TermError, add};
use std::alloc::{AllocError, Global};

/// What a turn makes of columns, before any is solved: an unmodified one stays as it is. Nothing is
/// looked at where there are no products.
pub(crate) fn unmodified_columns(
    alloc: Global,
    modified: &[u32],
    to: u32,
    products: &[Mono],
) -> Result<Items<Option<Poly>>, AllocError>
    ensures { IfOk result (λ known. known ≡ unmodified_columns_by modified.now to products.now) }
{
    match products {
        [] => Ok(Items::new(alloc)),
        [_, ..] => stays(alloc, modified, to),
    }
}

fn stays(alloc: Global, modified: &[u32], to: u32) -> Result<Items<Option<Poly>>, AllocError>
    ensures { IfOk result
        (λ known. known
        ≡ map (λ v. if is_among modified.now v then None else Some (column_of (At v)))
        (range_with_len 0 to)) }
{
    let mut known = Items::new(alloc);
    for v in 0..to {
        known.push(stay(alloc, modified, v)?)?;
    }
    Ok(known)
}

fn stay(alloc: Global, modified: &[u32], v: u32) -> Result<Option<Poly>, AllocError>
    ensures { IfOk result
        (λ next. next ≡ (if is_among modified.now v then None else Some (column_of (At v)))) }
{
    if is_among(modified, v) {
        return Ok(None);
    }
    Ok(Some(column(alloc, Col::At(v))?))
}

/// With the columns that the terms of a stratum solve.
pub(crate) fn with_terms(
    alloc: Global,
    known: Items<Option<Poly>>,
    variables: &[u32],
    found: &Option<Items<StratumTerm>>,
) -> Result<Items<Option<Poly>>, AllocError>
    ensures { IfOk result
        (λ all. all ≡ fold (with_term variables.now) known (unwrap_or found.now [])) }
{
    match found {
        None => Ok(known),
        Some(terms) => with_each(alloc, known, variables, terms.as_slice()),
    }
}

fn with_each(
    alloc: Global,
    known: Items<Option<Poly>>,
    variables: &[u32],
    terms: &[StratumTerm],
) -> Result<Items<Option<Poly>>, AllocError>
    ensures { IfOk result (λ all. all ≡ fold (with_term variables.now) known terms.now) }
{
    let mut all = known;
    for term in terms {
        all = with_term(alloc, all, variables, term)?;
    }
    Ok(all)
}

/// With the column that a term solves, if it solves one.
fn with_term(
    alloc: Global,
    known: Items<Option<Poly>>,
    variables: &[u32],
    term: &StratumTerm,
) -> Result<Items<Option<Poly>>, AllocError>
    ensures { IfOk result (λ all. all ≡ with_term variables.now known term.now) }
{
    match sole(variables, term.relation.a.as_slice()) {
        None => Ok(known),
        Some(v) => with_change(alloc, known, v, &term.recurrence.first),
    }
}

/// The one variable that has a number, if that is 1.
fn sole(variables: &[u32], numbers: &[i128]) -> Option<u32>
    ensures { result ≡ sole variables.now numbers.now }
{
    let mut variables = variables;
    let mut numbers = numbers;
    while let Some((v, more)) = variables.split_first()
        && let Some((n, rest)) = numbers.split_first()
    {
        if *n != 0 {
            return alone(*v, *n, rest);
        }
        variables = more;
        numbers = rest;
    }
    None
}

fn alone(v: u32, number: i128, others: &[i128]) -> Option<u32>
    ensures { result ≡ (if int_eq number (pos 1) && list_all (λ m. int_eq m (pos 0)) others.now
        then Some v else None) }
{
    if number == 1 && are_zero(others) {
        Some(v)
    } else {
        None
    }
}

/// With a column that is solved by its change, where that has known columns alone.
fn with_change(
    alloc: Global,
    known: Items<Option<Poly>>,
    v: u32,
    change: &Result<Poly, TermError>,
) -> Result<Items<Option<Poly>>, AllocError>
    ensures { IfOk result (λ all. all ≡ with_change known v change.now) }
{
    match change {
        Err(_) => Ok(known),
        Ok(change) => {
            if !is_solved_by(known.as_slice(), v, change) {
                return Ok(known);
            }
            let next = term_or_step(next_of(alloc, v, change))?;
            Ok(with_next(known, v, next))
        }
    }
}

/// Whether nothing is known of a column yet, and its change has known columns alone.
fn is_solved_by(known: &[Option<Poly>], v: u32, change: &Poly) -> bool
    ensures { result
        ≡ (is_open (slice_get known.now v) && every_column (is_known known.now) change.now) }
{
    is_open(known.get(v as usize)) && has_known(known, change.terms())
}

fn is_open(next: Option<&Option<Poly>>) -> bool
    ensures { result ≡ is_open (option_copied next.entry) }
{
    matches!(next, Some(None))
}

fn has_known(known: &[Option<Poly>], terms: &[(Mono, i128)]) -> bool
    ensures { result ≡ list_all (λ t. list_all (is_known known.now) t.0) terms.now }
{
    terms
        .iter()
        .all(|(mono, _)| are_known(known, mono.columns()))
}

fn are_known(known: &[Option<Poly>], columns: &[Col]) -> bool
    ensures { result ≡ list_all (is_known known.now) columns.now }
{
    columns.iter().all(|col| is_known(known, *col))
}

fn is_known(known: &[Option<Poly>], col: Col) -> bool
    ensures { result ≡ is_known known.now col }
{
    match col {
        Col::At(v) => matches!(known.get(v as usize), Some(Some(_))),
        Col::Aux(_) => false,
    }
}

fn next_of(alloc: Global, v: u32, change: &Poly) -> Result<Poly, TermError>
    ensures { Gives cause (λ p. p) result (column (At v) ⊞ Ok change.now) }
{
    let own = Poly::column(alloc, Col::At(v))?;
    add(alloc, &own, change)
}

fn with_next(
    known: Items<Option<Poly>>,
    v: u32,
    next: Result<Poly, TermError>,
) -> Items<Option<Poly>>
    ensures { result ≡ with_next known v next }
{
    let mut all = known.into_vec();
    if let Ok(next) = next
        && (v as usize) < all.len()
    {
        all[v as usize] = Some(next);
    }
    Items::from_vec(all)
}

/// The products of known columns.
pub(crate) fn known_products(
    alloc: Global,
    known: &[Option<Poly>],
    products: &[Mono],
) -> Result<Items<Mono>, AllocError>
    ensures { IfOk result (λ made. made ≡ known_products known.now products.now) }
{
    let mut made = Items::new(alloc);
    for mono in products {
        if are_known(known, mono.columns()) {
            made.push(*mono)?;
        }
    }
    Ok(made)
}

/// What stands for each column after a turn; 0 where that is not known.
pub(crate) fn columns_after_turn(
    alloc: Global,
    known: &[Option<Poly>],
) -> Result<Items<Poly>, AllocError>
    ensures { IfOk result (λ next. next ≡ columns_after_turn known.now) }
{
    let mut all = Items::new(alloc);
    for next in known {
        all.push(next_or_zero(alloc, next)?)?;
    }
    Ok(all)
}

fn next_or_zero(alloc: Global, next: &Option<Poly>) -> Result<Poly, AllocError>
    ensures { IfOk result (λ p. p ≡ unwrap_or next.now (constant_of (pos 0))) }
{
    match next {
        None => Ok(Poly::constant(alloc, 0)),
        Some(next) => next.clone(),
    }
}
