ghost use Rattle.std.specs.Prelude.{◌≡◌, ◌<◌, All, map, ℕ, Bool, Ok, IfOk, length};
ghost use Rattle.linear_terms.specs.declared.row.Case.{Case};
ghost use Rattle.items.specs.Gives.{Gives};
ghost use Rattle.linear_terms.specs.TermError.{cause};
ghost use Rattle.linear_terms.specs.Expressions.{Made, put_into};
ghost use Rattle.polyhedra.specs.Bounds.{IsCovered, for_entries};
ghost use Rattle.polyhedra.specs.Changes.{poly_at, change};
ghost use Rattle.polyhedra.specs.Tables.{fault_at, first_in, first_fault, table_of, with_made};

use items::Items;
use linear_terms::{Case, Col, Mono, Poly, TermError, difference, subst};
use std::alloc::{AllocError, Global};

/// The change of each variable in one case, 0 where it cannot be made; and why it cannot.
#[derive(Drop)]
pub(crate) struct Moves {
    pub(crate) polys: Items<Poly>,
    pub(crate) faults: Items<Option<TermError>>,
}

/// The changes of the variables of a case.
pub(crate) fn moves_of(alloc: Global, one: bool, case: &Case, to: u32) -> Result<Moves, AllocError>
    requires { length case.now.post ≡ to }
    ensures { IfOk result (λ moves. moves ≡ table_of one to case.now) }
{
    let mut moves = Moves {
        polys: Items::new(alloc),
        faults: Items::new(alloc),
    };
    for v in 0..to {
        let made = change(alloc, one, case, v);
        moves = with_change(alloc, moves, made)?;
    }
    Ok(moves)
}

/// The change of a variable: where both ends have one vocabulary its post less its entry column,
/// else its post.
pub fn change(alloc: Global, one: bool, case: &Case, v: u32) -> Result<Poly, TermError>
    requires { v < length case.now.post }
    ensures { Gives cause (λ p. p) result (change one case.now v) }
{
    let post = poly_at(case.post.as_slice(), v);
    if one {
        let column = Poly::column(alloc, Col::At(v))?;
        difference(alloc, post, &column)
    } else {
        let copy = post.clone()?;
        Ok(copy)
    }
}

fn poly_at(polys: &[Poly], v: u32) -> &Poly
    requires { v < length polys.now }
    ensures { result.now ≡ poly_at polys.now v }
{
    &polys[v as usize]
}

fn with_change(
    alloc: Global,
    moves: Moves,
    made: Result<Poly, TermError>,
) -> Result<Moves, AllocError>
    ensures { (stated : Made) → Gives cause (λ p. p) made stated
        → IfOk result (λ all. all ≡ with_made moves stated) }
{
    let mut polys = moves.polys;
    let mut faults = moves.faults;
    match made {
        Ok(poly) => {
            polys.push(poly)?;
            faults.push(None)?;
        }
        Err(TermError::Memory) => return Err(AllocError),
        Err(error) => {
            polys.push(Poly::constant(alloc, 0))?;
            faults.push(Some(error))?;
        }
    }
    Ok(Moves { polys, faults })
}

/// A direction with the changes of a case put in for its columns. A change that cannot be made
/// comes before any step.
pub(crate) fn objective(alloc: Global, moves: &Moves, d: &Poly) -> Result<Poly, TermError>
    requires { IsCovered (length moves.now.polys) d.now }
    ensures { (one : Bool) (n : ℕ) (case : Case) → moves.now ≡ table_of one n case →
        Gives cause (λ p. p) result (put_into (for_entries (change one case)) d.now) }
{
    match first_fault(moves.faults.as_slice(), d.terms()) {
        Some(error) => Err(error),
        None => subst(alloc, d, moves.polys.as_slice(), &[]),
    }
}

fn first_fault(faults: &[Option<TermError>], terms: &[(Mono, i128)]) -> Option<TermError>
    ensures { result ≡ first_fault faults.now terms.now }
{
    for (mono, _) in terms {
        if let Some(error) = first_in(faults, mono.columns()) {
            return Some(error);
        }
    }
    None
}

fn first_in(faults: &[Option<TermError>], columns: &[Col]) -> Option<TermError>
    ensures { result ≡ first_in faults.now columns.now }
{
    for col in columns {
        if let Some(error) = fault_at(faults, *col) {
            return Some(error);
        }
    }
    None
}

pub(crate) fn fault_at(faults: &[Option<TermError>], col: Col) -> Option<TermError>
    ensures { result ≡ fault_at faults.now col }
{
    match col {
        Col::At(v) => faults.get(v as usize).copied().flatten(),
        Col::Aux(_) => None,
    }
}

/// The changes of the variables of each case.
pub(crate) fn tables_of(
    alloc: Global,
    one: bool,
    cases: &[Case],
    to: u32,
) -> Result<Items<Moves>, AllocError>
    requires { All (λ case. length case.post ≡ to) cases.now }
    ensures { IfOk result (λ tables. tables ≡ map (table_of one to) cases.now) }
{
    let mut tables = Items::new(alloc);
    for case in cases {
        tables.push(moves_of(alloc, one, case, to)?)?;
    }
    Ok(tables)
}
