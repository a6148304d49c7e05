ghost use Rattle.std.specs.Prelude.{◌≡◌, ◌+◌, ◌||◌, ◌&&◌, ◌==◌, pos, negsuc, count_by, IfOk, OnOk};
ghost use Rattle.std.specs.Ordering.{int_eq};
ghost use Rattle.items.specs.Gives.{Gives};
ghost use Rattle.linear_terms.specs.TermError.{cause};
ghost use Rattle.linear_terms.specs.Auxiliaries.{has_auxiliary};
ghost use Rattle.transition_formula.specs.Order.{solves, first_solved, solvable_auxiliary, first_equation, solution, with_solution};

use linear_terms::{Col, Kind, Mono, Poly, Row, TermError, scale, subst_aux, without};
use std::alloc::Global;

/// The place of the first equation that can be solved, and its auxiliary.
pub(crate) fn first_equation(rows: &[Row]) -> Option<(usize, u32)>
    ensures { result ≡ first_equation rows.now }
{
    for (place, row) in rows.iter().enumerate() {
        if let Some(aux) = solvable_auxiliary(row) {
            return Some((place, aux));
        }
    }
    None
}

/// The auxiliary for which a row can be solved.
fn solvable_auxiliary(row: &Row) -> Option<u32>
    ensures { result ≡ solvable_auxiliary row.now.kind row.now.poly }
{
    match row.kind {
        Kind::AtMost => None,
        Kind::Equal => first_solved(row.poly.terms()),
    }
}

fn first_solved(terms: &[(Mono, i128)]) -> Option<u32>
    ensures { result ≡ first_solved terms.now terms.now }
{
    for (mono, number) in terms {
        if let Some(aux) = solves(terms, mono.columns(), number) {
            return Some(aux);
        }
    }
    None
}

/// The auxiliary that stands alone in a term with number 1 or -1, and in no other term.
fn solves(terms: &[(Mono, i128)], columns: &[Col], number: &i128) -> Option<u32>
    ensures { result ≡ solves terms.now (columns.now, number.now) }
{
    match columns {
        [Col::Aux(aux)] => {
            if (*number == 1 || *number == -1) && occurrences(terms, *aux) == 1 {
                Some(*aux)
            } else {
                None
            }
        }
        _ => None,
    }
}

/// In how many terms an auxiliary occurs.
fn occurrences(terms: &[(Mono, i128)], aux: u32) -> usize
    ensures { result ≡ count_by (λ t. has_auxiliary aux t.0) terms.now }
{
    terms
        .iter()
        .filter(|(mono, _)| mono.has_auxiliary(aux))
        .count()
}

/// What an equation says that its auxiliary is.
pub(crate) fn solution(alloc: Global, equation: &Poly, aux: u32) -> Result<Poly, TermError>
    ensures { Gives cause (λ p. p) result (solution equation.now aux) }
{
    let rest = without(alloc, equation, aux)?;
    if equation.column_coefficient(Col::Aux(aux)) == -1 {
        Ok(rest)
    } else {
        scale(alloc, &rest, -1)
    }
}

/// The solution put in where the auxiliary occurs.
pub(crate) fn with_solution(
    alloc: Global,
    poly: &Poly,
    aux: u32,
    by: &Poly,
) -> Result<Poly, TermError>
    ensures { Gives cause (λ p. p) result (with_solution aux by.now poly.now) }
{
    if poly.has_auxiliary(aux) {
        subst_aux(alloc, poly, aux, by)
    } else {
        Ok(poly.clone()?)
    }
}
