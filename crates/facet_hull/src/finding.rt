ghost use Rattle.std.specs.Prelude.{◌≡◌, ◌<◌, IfOk, length, nat_lt, All, IsTrue, map, true};
ghost use Rattle.std.specs.List.{list_any};
ghost use Rattle.items.specs.Gives.{Gives};
ghost use Rattle.linear_terms.specs.TermError.{cause as term_cause};
ghost use Rattle.linear_terms.specs.Expressions.{linear, or_zero};
ghost use Rattle.linear_terms.specs.declared.col.Col.TheVariants.{At};
ghost use Rattle.farkas_check.specs.Relations.{term_count, have_equally_many};
ghost use Rattle.farkas_check.specs.Sizes.{row_count, weight};
ghost use Rattle.posing.specs.Logs.{loss_notes};
ghost use Rattle.polyhedra.specs.Changes.{change, changes_in, modified_variables};
ghost use Rattle.cones.specs.Refusal.{cause};
ghost use Rattle.facet_hull.specs.Changes.{HasChange};
ghost use Rattle.facet_hull.specs.Facets.{hull_cases, most_hull_rows, is_case_beyond, is_beyond, first_limit, polynomials, facets_by, outcome, facets_of, IsOfHull, Rise, with_column};
ghost use Rattle.facet_hull.specs.Hull.{IsHull};
ghost use Rattle.facet_hull.specs.InBits as in_bits;

use crate::hull::normals;
use crate::lines::columns_of;
use crate::outcome::Facets;
use cones::ConeStop;
use farkas_check::{Change, Limit, Stratum};
use items::Items;
use linear_terms::{Case, Col, Kind, Poly, Row, TermError, add, scale};
use polyhedra::{change, movement_of};
use std::alloc::{AllocError, Global};
use transition_formula::{Formula, Loss};
use whole_numbers::Wide;

/// Modified variables of a body whose hull is looked for.
const MOST_MODIFIED: usize = 4;

/// Cases of it.
const MOST_CASES: usize = 4;

/// Rows of a case, an equation counting two.
const MOST_ROWS: u32 = 6;

/// Monomials in the rows and changes of a case.
const MOST_COLUMNS: usize = 6;

/// The exact hull of the changes of a body.
pub fn facets(alloc: Global, body: &Formula) -> Result<Facets, AllocError>
    ensures value { IfOk result (λ made. made ≡ facets_of body.now) }
    ensures hull { IfOk result
        (λ made. IsOfHull (modified_variables true body.now) (hull_cases body.now) made) }
{
    let movement = movement_of(alloc, true, body)?;
    let modified = movement.modified.as_slice();
    let cases = hull_cases(alloc, modified, body.cases(), body.to())?;
    outcome(alloc, modified, movement.lost.as_slice(), cases)
}

/// What is found of cases whose terms are the changes of variables, of which some are lost.
fn outcome(
    alloc: Global,
    modified: &[u32],
    lost: &[Loss],
    cases: Items<Change>,
) -> Result<Facets, AllocError>
    requires rise { Rise modified.now }
    requires counts { IsTrue (have_equally_many cases) }
    ensures value { IfOk result
        (λ made. made ≡ outcome modified.now (loss_notes lost.now) cases) }
    ensures hull { IfOk result (λ made. IsOfHull modified.now cases made) }
{
    if is_beyond(alloc, modified, cases.as_slice())? {
        return Ok(Facets::Beyond);
    }
    match first_limit(lost) {
        Some(limit) => Ok(Facets::Limit(limit)),
        None => facets_by(alloc, modified, cases),
    }
}

/// For each case its rows, and the changes of variables in order; 0 for one that cannot be made.
fn hull_cases(
    alloc: Global,
    variables: &[u32],
    cases: &[Case],
    to: u32,
) -> Result<Items<Change>, AllocError>
    requires posts { All (λ case. length case.post ≡ to) cases.now }
    requires low { All (λ v. v < to) variables.now }
    ensures { IfOk result (λ made. made ≡ map (changes_in true variables.now) cases.now) }
{
    let mut made = Items::new(alloc);
    for case in cases {
        made.push(changes_in(alloc, variables, case)?)?;
    }
    Ok(made)
}

fn changes_in(alloc: Global, variables: &[u32], case: &Case) -> Result<Change, AllocError>
    requires { All (λ v. v < length case.now.post) variables.now }
    ensures { IfOk result (λ made. made ≡ changes_in true variables.now case.now) }
{
    let rows = case.rows.clone()?;
    let terms = terms_in(alloc, variables, case)?;
    Ok(Change { rows, terms })
}

/// The changes of variables; 0 where one cannot be made.
fn terms_in(alloc: Global, variables: &[u32], case: &Case) -> Result<Items<Poly>, AllocError>
    requires { All (λ v. v < length case.now.post) variables.now }
    ensures { IfOk result
        (λ terms. terms ≡ map (λ v. or_zero (change true case.now v)) variables.now) }
{
    let mut terms = Items::new(alloc);
    for v in variables {
        terms.push(change_or_zero(alloc, case, *v)?)?;
    }
    Ok(terms)
}

fn change_or_zero(alloc: Global, case: &Case, v: u32) -> Result<Poly, AllocError>
    requires { v < length case.now.post }
    ensures { IfOk result (λ p. p ≡ or_zero (change true case.now v)) }
{
    match change(alloc, true, case, v) {
        Ok(poly) => Ok(poly),
        Err(TermError::Memory) => Err(AllocError),
        Err(TermError::Wide { .. }) => Ok(Poly::constant(alloc, 0)),
        Err(TermError::Degree) => Ok(Poly::constant(alloc, 0)),
    }
}

/// Whether too many variables are modified, there are too many cases, or one of them has too much.
fn is_beyond(alloc: Global, modified: &[u32], cases: &[Change]) -> Result<bool, AllocError>
    ensures { IfOk result (λ beyond. beyond ≡ is_beyond modified.now cases.now) }
{
    if MOST_MODIFIED < modified.len() || MOST_CASES < cases.len() {
        return Ok(true);
    }
    is_any_beyond(alloc, cases)
}

fn is_any_beyond(alloc: Global, cases: &[Change]) -> Result<bool, AllocError>
    ensures { IfOk result (λ beyond. beyond ≡ list_any is_case_beyond cases.now) }
{
    let [case, more @ ..] = cases else {
        return Ok(false);
    };
    if is_case_beyond(alloc, case)? {
        return Ok(true);
    }
    is_any_beyond(alloc, more)
}

/// Whether a case has too many rows, or too many monomials in its rows and changes.
fn is_case_beyond(alloc: Global, case: &Change) -> Result<bool, AllocError>
    ensures { IfOk result (λ beyond. beyond ≡ is_case_beyond case.now) }
{
    if has_many_rows(case.rows.as_slice()) {
        return Ok(true);
    }
    let columns = columns_of(alloc, case)?;
    Ok(MOST_COLUMNS < columns.len())
}

/// Whether the rows stand for too many inequalities.
fn has_many_rows(rows: &[Row]) -> bool
    ensures { result ≡ nat_lt most_hull_rows (row_count rows.now) }
{
    let mut count = 0;
    for row in rows {
        count += weight(row.kind);
        if MOST_ROWS < count {
            return true;
        }
    }
    false
}

/// How many inequalities a row stands for.
fn weight(kind: Kind) -> u32
    ensures { result ≡ weight kind }
{
    match kind {
        Kind::AtMost => 1,
        Kind::Equal => 2,
    }
}

/// The first of the losses that is a step out of 128 bits.
fn first_limit(losses: &[Loss]) -> Option<Limit>
    ensures { result ≡ first_limit (loss_notes losses.now) }
{
    let [loss, more @ ..] = losses else {
        return None;
    };
    match loss {
        Loss::Wide { left, right, times } => Some(Limit::Wide {
            left: *left,
            right: *right,
            times: *times,
        }),
        Loss::Degree => first_limit(more),
    }
}

/// The normals of the cases, or the step of the search that leaves 128 bits.
fn facets_by(alloc: Global, modified: &[u32], cases: Items<Change>) -> Result<Facets, AllocError>
    requires rise { Rise modified.now }
    requires counts { IsTrue (have_equally_many cases) }
    ensures value { IfOk result (λ made. made ≡ facets_by modified.now (in_bits.normals cases)) }
    ensures hull { IfOk result (λ made. IsOfHull modified.now cases made) }
{
    match normals_of(alloc, cases) {
        Ok(forms) => {
            let polys = polynomials(alloc, modified, forms.as_slice())?;
            Ok(Facets::Normals(polys))
        }
        Err(ConeStop::Wide(Wide { left, right, times })) => {
            Ok(Facets::Limit(Limit::Wide { left, right, times }))
        }
        Err(ConeStop::Memory) => Err(AllocError),
    }
}

fn normals_of(alloc: Global, cases: Items<Change>) -> Result<Items<Items<i128>>, ConeStop>
    requires { IsTrue (have_equally_many cases) }
    ensures stated { Gives cause (λ made. made) result (in_bits.normals cases) }
    ensures hull { IfOk result
        (λ made. HasChange cases → IsHull (term_count cases) cases made) }
{
    match Stratum::new(cases, Items::new(alloc)) {
        Some(body) => normals(alloc, &body),
        None => unreachable!(),
    }
}

/// Forms of changes as polynomials over these variables.
fn polynomials(
    alloc: Global,
    variables: &[u32],
    forms: &[Items<i128>],
) -> Result<Items<Poly>, AllocError>
    requires { Rise variables.now }
    ensures { IfOk result (λ polys. polys ≡ polynomials variables.now forms.now) }
{
    let mut polys = Items::new(alloc);
    for form in forms {
        polys.push(linear(alloc, form.as_slice(), variables)?)?;
    }
    Ok(polys)
}

/// The polynomial that has numbers at variables.
fn linear(alloc: Global, numbers: &[i128], variables: &[u32]) -> Result<Poly, AllocError>
    requires { Rise variables.now }
    ensures { IfOk result (λ p. p ≡ linear numbers.now (map (λ v. At v) variables.now)) }
{
    let [number, numbers @ ..] = numbers else {
        return Ok(Poly::constant(alloc, 0));
    };
    let [v, variables @ ..] = variables else {
        return Ok(Poly::constant(alloc, 0));
    };
    let rest = linear(alloc, numbers, variables)?;
    match with_column(alloc, number, *v, &rest) {
        Ok(poly) => Ok(poly),
        Err(_memory) => Err(AllocError),
    }
}

/// The polynomial with a multiple of an entry column before it.
fn with_column(alloc: Global, number: &i128, v: u32, rest: &Poly) -> Result<Poly, TermError>
    ensures { Gives term_cause (λ p. p) result (with_column number.now (At v) rest.now) }
{
    let column = Poly::column(alloc, Col::At(v))?;
    let own = scale(alloc, &column, *number)?;
    add(alloc, rest, &own)
}
