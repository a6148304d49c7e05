ghost use Rattle.std.specs.Prelude.{◌≡◌, slice_get, Some, All, IsTrue};
ghost use Rattle.farkas_check.specs.declared.question.Goal.{Goal};
ghost use Rattle.simplex.specs.Shortness.{IsShort, IsShortRatio, IsShortPoly, AreShortRows, IsShortCert, IsShortRowsAnswer, IsShortGoalsAnswer, HaveShortRows};

use farkas_check::{Answer, Cert, Goal, Ratio};
use linear_terms::{Mono, Poly, Row};

/// The greatest size of a short number. A product of two, as many times as there are rows or terms,
/// is a number of 128 bits.
const SHORT: u128 = 1099511627776;

/// The most rows, and the most terms of a polynomial, that are short.
const MANY: usize = 4294967295;

/// Whether by the sizes of the numbers alone no step of the answer's test leaves 128 bits.
pub(crate) fn is_short_rows_answer(rows: &[Row], found: &Answer) -> bool
    ensures { IsTrue result → IsShortRowsAnswer rows.now found.now }
{
    match found {
        Answer::Yes(by) => are_short(by.as_slice()) && are_short_rows(rows),
        Answer::No(point) => are_short_ratios(point.as_slice()) && are_short_rows(rows),
        _ => false,
    }
}

/// The same of an answer to the question Sup, where it is known whether the rows of the cases that it
/// speaks of are short.
pub(crate) fn is_short_goals_answer(goals: &[Goal], found: &Answer, short: bool) -> bool
    requires { IsTrue short → HaveShortRows goals.now found.now }
    ensures { IsTrue result → IsShortGoalsAnswer goals.now found.now }
{
    match found {
        Answer::Bound {
            at,
            certs,
            point,
            ..
        } => {
            short
                && is_short(*at)
                && are_short_ratios(point.as_slice())
                && are_short_certs(certs.as_slice())
                && have_short_objectives(goals)
        }
        Answer::Unbounded { case, point, ray } => {
            short
                && are_short_ratios(point.as_slice())
                && are_short_ratios(ray.as_slice())
                && has_short_objective(goals, *case as usize)
        }
        _ => false,
    }
}

fn has_short_objective(goals: &[Goal], place: usize) -> bool
    ensures { (goal : Goal) → IsTrue result → slice_get goals.now place ≡ Some goal
        → IsShortPoly goal.objective }
{
    match goals.get(place) {
        Some(goal) => is_short_poly(&goal.objective),
        None => false,
    }
}

fn have_short_objectives(goals: &[Goal]) -> bool
    ensures { IsTrue result → All (λ goal. IsShortPoly goal.objective) goals.now }
{
    goals.iter().all(|goal| is_short_poly(&goal.objective))
}

pub(crate) fn are_short_rows(rows: &[Row]) -> bool
    ensures { IsTrue result → AreShortRows rows.now }
{
    rows.len() <= MANY && are_short_polys(rows)
}

fn are_short_polys(rows: &[Row]) -> bool
    ensures { IsTrue result → All (λ row. IsShortPoly row.poly) rows.now }
{
    rows.iter().all(|row| is_short_poly(&row.poly))
}

fn is_short_poly(poly: &Poly) -> bool
    ensures { IsTrue result → IsShortPoly poly.now }
{
    let terms = poly.terms();
    is_short(poly.rest()) && terms.len() <= MANY && are_short_terms(terms)
}

fn are_short_terms(terms: &[(Mono, i128)]) -> bool
    ensures { IsTrue result → All (λ t. IsShort t.1) terms.now }
{
    terms.iter().all(|(_, number)| is_short(*number))
}

fn are_short_certs(certs: &[Cert]) -> bool
    ensures { IsTrue result → All IsShortCert certs.now }
{
    certs.iter().all(|cert| is_short_cert(cert))
}

fn is_short_cert(cert: &Cert) -> bool
    ensures { IsTrue result → IsShortCert cert.now }
{
    is_short(cert.scale) && is_short(cert.sum) && are_short(cert.by.as_slice())
}

fn are_short(numbers: &[i128]) -> bool
    ensures { IsTrue result → All IsShort numbers.now }
{
    numbers.iter().all(|number| is_short(*number))
}

fn is_short(number: i128) -> bool
    ensures { IsTrue result → IsShort number }
{
    number.unsigned_abs() <= SHORT
}

fn are_short_ratios(numbers: &[Ratio]) -> bool
    ensures { IsTrue result → All IsShortRatio numbers.now }
{
    numbers.iter().all(|number| is_short_ratio(number))
}

/// Whether a ratio is a whole short number.
fn is_short_ratio(number: &Ratio) -> bool
    ensures { IsTrue result → IsShortRatio number.now }
{
    number.den() == 1 && is_short(number.num())
}
