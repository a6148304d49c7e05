ghost use Rattle.std.specs.Prelude.{◌≡◌, ◌↔◌, ◌≤◌, All, IsTrue, IfOk, unsigned_abs};
ghost use Rattle.farkas_check.specs.Sizes.{HasNumbersUpTo, row_count, weight};
ghost use Rattle.farkas_check.specs.Relations.{term_count};
ghost use Rattle.elimination.specs.Narrow.{AreSmallRows, IsSmallCase, IsSmallGoal, IsSmallChange, IsSmallStratum};

use farkas_check::{Change, Goal, Stratum, case_columns, stratum_columns};
use linear_terms::{Kind, Mono, Poly, Row};
use std::alloc::{AllocError, Global};

/// The most columns of a narrow question.
const COLUMNS: usize = 3;

/// The most cases of a narrow question.
pub(crate) const CASES: usize = 4294967296;

/// The most terms of a narrow stratum question.
const TERMS: usize = 2;

/// The most inequalities that the rows of a case of a narrow question stand for.
const ROWS: u32 = 12;

/// Whether a case has few columns, few rows and numbers up to the given one.
pub(crate) fn is_small_case(
    alloc: Global,
    rows: &[Row],
    terms: &[(Mono, i128)],
    most: u128,
) -> Result<bool, AllocError>
    ensures { IfOk result (λ b. IsTrue b ↔ IsSmallCase most rows.now terms.now) }
{
    let columns = case_columns(alloc, rows, terms)?;
    Ok(columns.len() <= COLUMNS && has_few_rows(rows) && have_numbers_up_to(rows, most))
}

/// Whether a case with an objective has few columns, few rows and small numbers.
pub(crate) fn is_small_goal(alloc: Global, goal: &Goal) -> Result<bool, AllocError>
    ensures { IfOk result (λ b. IsTrue b ↔ IsSmallGoal goal.now) }
{
    let terms = goal.objective.terms();
    let small = is_small_case(alloc, goal.rows.as_slice(), terms, 64)?;
    Ok(small && has_numbers_up_to(&goal.objective, 64))
}

/// Whether a case of a stratum question has few columns, few rows and small numbers.
pub(crate) fn is_small_change(alloc: Global, case: &Change) -> Result<bool, AllocError>
    ensures { IfOk result (λ b. IsTrue b ↔ IsSmallChange case.now) }
{
    let small = is_small_case(alloc, case.rows.as_slice(), &[], 4)?;
    Ok(small && are_up_to(case.terms.as_slice(), 4))
}

/// Whether a stratum question has few columns, cases and terms, and lower terms of small numbers.
pub(crate) fn is_small_stratum(alloc: Global, stratum: &Stratum) -> Result<bool, AllocError>
    ensures { IfOk result (λ b. IsTrue b ↔ IsSmallStratum stratum.now.cases stratum.now.lower) }
{
    let columns = stratum_columns(alloc, stratum)?;
    let cases = stratum.cases();
    let few = columns.len() <= COLUMNS && cases.len() <= CASES;
    Ok(few && term_count(cases) <= TERMS && are_up_to(stratum.lower(), 4))
}

/// How many terms each case has.
fn term_count(cases: &[Change]) -> usize
    ensures { result ≡ term_count cases.now }
{
    match cases {
        [case, ..] => case.terms.len(),
        [] => 0,
    }
}

/// Whether the rows stand for few inequalities.
fn has_few_rows(rows: &[Row]) -> bool
    ensures { IsTrue result ↔ (row_count rows.now ≤ 12) }
{
    let mut count = 0;
    for row in rows {
        count += weight(row.kind);
        if ROWS < count {
            return false;
        }
    }
    true
}

/// How many inequalities a row stands for.
fn weight(kind: Kind) -> u32
    ensures { result ≡ weight kind }
{
    match kind {
        Kind::AtMost => 1,
        Kind::Equal => 2,
    }
}

/// Whether no number of the rows is greater in magnitude.
fn have_numbers_up_to(rows: &[Row], most: u128) -> bool
    ensures { IsTrue result ↔ AreSmallRows most rows.now }
{
    rows.iter().all(|row| has_numbers_up_to(&row.poly, most))
}

/// Whether no number of the polynomials is greater in magnitude.
fn are_up_to(polys: &[Poly], most: u128) -> bool
    ensures { IsTrue result ↔ All (HasNumbersUpTo most) polys.now }
{
    polys.iter().all(|poly| has_numbers_up_to(poly, most))
}

/// Whether no number of the polynomial is greater in magnitude.
#[tactic(auto, using(crate::proofs::NarrowCases::sizes))]
fn has_numbers_up_to(poly: &Poly, most: u128) -> bool
    ensures { IsTrue result ↔ HasNumbersUpTo most poly.now }
{
    poly.rest().unsigned_abs() <= most && has_coefficients_up_to(poly.terms(), most)
}

fn has_coefficients_up_to(terms: &[(Mono, i128)], most: u128) -> bool
    ensures { IsTrue result ↔ All (λ t. unsigned_abs t.1 ≤ most) terms.now }
{
    terms
        .iter()
        .all(|(_, number)| number.unsigned_abs() <= most)
}
