ghost use Rattle.std.specs.Prelude.{◌≡◌, ◌++◌, not, pos, map, length, IfOk};
ghost use Rattle.std.specs.List.{filter, flat_map, list_any, range_with_len};
ghost use Rattle.linear_terms.specs.Auxiliaries.{has_entry};
ghost use Rattle.linear_terms.specs.Equality.{poly_eq};
ghost use Rattle.linear_terms.specs.Polynomial.{constant_of};
ghost use Rattle.posing.specs.Logs.{loss_notes};
ghost use Rattle.polyhedra.specs.Changes.{poly_at, modified_variables, moving, lost_changes, changes_of, occurs_in, occurring};
ghost use Rattle.polyhedra.specs.Tables.{is_moved, is_moved_in, is_made, is_made_in, first_of, losses_at, change_of, changes_from};

use crate::changes::{Moves, fault_at, tables_of};
use farkas_check::Change;
use items::Items;
use linear_terms::{Case, Col, Poly, Row, TermError};
use std::alloc::{AllocError, Global};
use transition_formula::{Formula, Loss};

/// What a formula changes.
#[derive(Drop)]
pub struct Movement {
    /// The variables whose change is not zero, or cannot be made, in some case.
    pub modified: Items<u32>,
    /// Those of them whose change can be made in each case.
    pub moving: Items<u32>,
    /// What is lost of the others: of each the loss in the first case that has one.
    pub lost: Items<Loss>,
    /// The rows of each case, and the changes of the variables that move.
    pub cases: Items<Change>,
    /// The entry columns that occur in them.
    pub occurring: Items<u32>,
}

/// What a formula changes; `one` says whether both ends have one vocabulary.
pub fn movement_of(alloc: Global, one: bool, f: &Formula) -> Result<Movement, AllocError>
    ensures modified { IfOk result (λ c. c.modified ≡ modified_variables one f.now) }
    ensures moving { IfOk result (λ c. c.moving ≡ moving one f.now) }
    ensures lost { IfOk result (λ c. loss_notes c.lost ≡ lost_changes one f.now) }
    ensures cases { IfOk result (λ c. c.cases ≡ changes_of one f.now) }
    ensures occurring { IfOk result (λ c. c.occurring ≡ occurring one f.now) }
{
    let tables = tables_of(alloc, one, f.cases(), f.to())?;
    let modified = modified_variables(alloc, tables.as_slice(), f.to())?;
    let moving = moving(alloc, tables.as_slice(), modified.as_slice())?;
    let lost = lost_changes(alloc, tables.as_slice(), modified.as_slice())?;
    let cases = changes_of(alloc, moving.as_slice(), f.cases(), tables.as_slice())?;
    let occurring = occurring(alloc, cases.as_slice(), f.from())?;
    Ok(Movement {
        modified,
        moving,
        lost,
        cases,
        occurring,
    })
}

/// The variables whose change is not zero, or cannot be made, in some case.
fn modified_variables(alloc: Global, tables: &[Moves], to: u32) -> Result<Items<u32>, AllocError>
    ensures { IfOk result
        (λ variables. variables ≡ filter (is_moved_in tables.now) (range_with_len 0 to)) }
{
    let mut variables = Items::new(alloc);
    for v in 0..to {
        if is_moved_in(alloc, tables, v) {
            variables.push(v)?;
        }
    }
    Ok(variables)
}

fn is_moved_in(alloc: Global, tables: &[Moves], v: u32) -> bool
    ensures { result ≡ is_moved_in tables.now v }
{
    tables.iter().any(|moves| is_moved(alloc, v, moves))
}

fn is_moved(alloc: Global, v: u32, moves: &Moves) -> bool
    ensures { result ≡ is_moved v moves.now }
{
    fault_at(moves.faults.as_slice(), Col::At(v)).is_some()
        || is_not_zero(alloc, moves.polys.as_slice(), v)
}

fn is_not_zero(alloc: Global, polys: &[Poly], v: u32) -> bool
    ensures { result ≡ not (poly_eq (poly_at polys.now v) (constant_of (pos 0))) }
{
    match polys.get(v as usize) {
        Some(poly) => *poly != Poly::constant(alloc, 0),
        None => false,
    }
}

/// Those of the variables whose change can be made in each case.
fn moving(alloc: Global, tables: &[Moves], variables: &[u32]) -> Result<Items<u32>, AllocError>
    ensures { IfOk result (λ moving. moving ≡ filter (is_made_in tables.now) variables.now) }
{
    let mut moving = Items::new(alloc);
    for v in variables {
        if is_made_in(tables, *v) {
            moving.push(*v)?;
        }
    }
    Ok(moving)
}

fn is_made_in(tables: &[Moves], v: u32) -> bool
    ensures { result ≡ is_made_in tables.now v }
{
    tables.iter().all(|moves| is_made(v, moves))
}

fn is_made(v: u32, moves: &Moves) -> bool
    ensures { result ≡ is_made v moves.now }
{
    fault_at(moves.faults.as_slice(), Col::At(v)).is_none()
}

// ---- losses

/// Of each variable the reason why its change cannot be made in the first case where it cannot.
fn lost_changes(
    alloc: Global,
    tables: &[Moves],
    variables: &[u32],
) -> Result<Items<Loss>, AllocError>
    ensures { IfOk result
        (λ losses. losses ≡ flat_map (λ v. losses_at (first_of tables.now v)) variables.now) }
{
    let mut losses = Items::new(alloc);
    for v in variables {
        losses = with_loss(losses, first_of(tables, *v))?;
    }
    Ok(losses)
}

fn with_loss(losses: Items<Loss>, fault: Option<TermError>) -> Result<Items<Loss>, AllocError>
    ensures { IfOk result (λ all. all ≡ losses ++ losses_at fault) }
{
    let mut all = losses;
    match fault {
        None => {}
        Some(TermError::Wide { left, right, times }) => {
            all.push(Loss::Wide { left, right, times })?;
        }
        Some(TermError::Degree) => {
            all.push(Loss::Degree)?;
        }
        Some(TermError::Memory) => return Err(AllocError),
    }
    Ok(all)
}

fn first_of(tables: &[Moves], v: u32) -> Option<TermError>
    ensures { result ≡ first_of tables.now v }
{
    for moves in tables {
        if let Some(error) = fault_at(moves.faults.as_slice(), Col::At(v)) {
            return Some(error);
        }
    }
    None
}

// ---- terms of a stratum question

/// The changes of some variables, over the rows of each case.
fn changes_of(
    alloc: Global,
    variables: &[u32],
    cases: &[Case],
    tables: &[Moves],
) -> Result<Items<Change>, AllocError>
    requires { length tables.now ≡ length cases.now }
    ensures { IfOk result (λ changes. changes ≡ changes_from variables.now cases.now tables.now) }
{
    let mut changes = Items::new(alloc);
    for (place, case) in cases.iter().enumerate() {
        changes.push(change_of(alloc, variables, case, &tables[place])?)?;
    }
    Ok(changes)
}

fn change_of(
    alloc: Global,
    variables: &[u32],
    case: &Case,
    moves: &Moves,
) -> Result<Change, AllocError>
    ensures { IfOk result (λ change. change ≡ change_of variables.now case.now moves.now) }
{
    let rows = case.rows.clone()?;
    let terms = terms_of(alloc, variables, moves.polys.as_slice())?;
    Ok(Change { rows, terms })
}

fn terms_of(alloc: Global, variables: &[u32], polys: &[Poly]) -> Result<Items<Poly>, AllocError>
    ensures { IfOk result (λ terms. terms ≡ map (poly_at polys.now) variables.now) }
{
    let mut terms = Items::new(alloc);
    for v in variables {
        terms.push(copy_at(alloc, polys, *v)?)?;
    }
    Ok(terms)
}

fn copy_at(alloc: Global, polys: &[Poly], v: u32) -> Result<Poly, AllocError>
    ensures { IfOk result (λ poly. poly ≡ poly_at polys.now v) }
{
    match polys.get(v as usize) {
        Some(poly) => {
            let copy = poly.clone()?;
            Ok(copy)
        }
        None => Ok(Poly::constant(alloc, 0)),
    }
}

/// The entry columns, of so many, that occur in a row or in a term.
fn occurring(alloc: Global, cases: &[Change], from: u32) -> Result<Items<u32>, AllocError>
    ensures { IfOk result
        (λ columns. columns ≡ filter (occurs_in cases.now) (range_with_len 0 from)) }
{
    let mut columns = Items::new(alloc);
    for v in 0..from {
        if occurs_in(cases, v) {
            columns.push(v)?;
        }
    }
    Ok(columns)
}

fn occurs_in(cases: &[Change], v: u32) -> bool
    ensures { result ≡ occurs_in cases.now v }
{
    cases.iter().any(|case| rows_have(case.rows.as_slice(), v)
        || terms_have(case.terms.as_slice(), v))
}

fn rows_have(rows: &[Row], v: u32) -> bool
    ensures { result ≡ list_any (λ row. has_entry v row.poly) rows.now }
{
    rows.iter().any(|row| row.poly.has_entry(v))
}

fn terms_have(terms: &[Poly], v: u32) -> bool
    ensures { result ≡ list_any (has_entry v) terms.now }
{
    terms.iter().any(|term| term.has_entry(v))
}
