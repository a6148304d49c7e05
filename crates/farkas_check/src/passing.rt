ghost use Rattle.std.specs.Prelude.{◌≡◌, ◌↔◌, Ok, true, length, IsTrue};
ghost use Rattle.farkas_check.specs.Laws.{PassingIsTrue};
ghost use Rattle.farkas_check.specs.Meaning.{IsLimit, IsTight, IsTrueAnswer};
ghost use Rattle.farkas_check.specs.declared.question.Question.TheVariants as question;
ghost use Rattle.farkas_check.specs.Listing.{columns_in};
ghost use Rattle.farkas_check.specs.Stratum.{tested_basis};
ghost use Rattle.farkas_check.specs.Tested.{goal_columns, tested_yes, tested_no, tested_below, tested_cert, tested_certs, tested_point, tested_reached, tested_ray, tested_bound, tested_unbounded, is_limit, outcome, passes, width_of, Passes};

use crate::columns::has_length;
use crate::free::{Basis, tested_free, tested_spots};
use crate::kept::{canonicity, positivity};
use crate::lines::{have_unknowns, is_reduced};
use crate::multiples::{are_multipliers, constant_sum, has_sum, sums_cancel};
use crate::points::{meets, meets_slopes, ratio_value, slope_at};
use crate::source::{ColumnSource, Columns};
use crate::stratum::unknown_count;
use crate::ties::tested_relations;
use crate::{Answer, Cert, Goal, Limit, Question, Ratio, Relation, Spot, Stratum};
use items::Items;
use linear_terms::Row;
use whole_numbers::{Wide, product, sum};

/// Whether an answer passes the test of its question, with no sum or product of it past 128 bits.
pub fn test(question: &Question, answer: &Answer) -> bool
    ensures exact { result ≡ passes question.now answer.now }
    ensures passing { IsTrue result ↔ Passes question.now answer.now }
    ensures sound { IsTrue result → IsTrueAnswer question.now answer.now }
    ensures tight { IsTrue result → ¬ IsLimit answer.now → IsTight question.now answer.now }
{
    canonicity(question);
    positivity(answer);
    match outcome(question, answer) {
        Ok(passes) => passes,
        Err(_wide) => false,
    }
}

/// An answer that passes is true over whole numbers, and the truth about rational points unless it
/// is a limit.
pub fn truth_of_passing()
    ensures { PassingIsTrue }
{}

/// The first sum or product of the test that leaves 128 bits before a part of the test fails.
pub fn test_width(question: &Question, answer: &Answer) -> Option<Limit>
    ensures { result ≡ width_of (outcome question.now answer.now) }
{
    match outcome(question, answer) {
        Ok(_passes) => None,
        Err(step) => Some(Limit::Wide {
            left: step.left,
            right: step.right,
            times: step.times,
        }),
    }
}

/// The parts of the test in order.
fn outcome(question: &Question, answer: &Answer) -> Result<bool, Wide>
    ensures { result ≡ outcome question.now answer.now }
{
    match question {
        Question::Infeasible(rows) => rows_outcome(rows.as_slice(), answer),
        Question::Sup(goals) => goals_outcome(goals.as_slice(), answer),
        Question::Stratum(stratum) => stratum_outcome(stratum, answer),
    }
}

/// What the test of an answer to the question Infeasible of these rows comes to: whether it passes,
/// or the first sum or product that leaves 128 bits.
pub fn rows_outcome(rows: &[Row], answer: &Answer) -> Result<bool, Wide>
    ensures { result ≡ outcome (question.Infeasible rows.now) answer.now }
{
    match answer {
        Answer::Yes(by) => tested_yes(rows, by.as_slice()),
        Answer::No(point) => tested_no(rows, point.as_slice()),
        Answer::Bound { .. } => Ok(false),
        Answer::Unbounded { .. } => Ok(false),
        Answer::Basis { .. } => Ok(false),
        Answer::Limit(limit) => Ok(is_limit(limit)),
    }
}

/// The same of an answer to the question Sup of these goals.
pub fn goals_outcome(goals: &[Goal], answer: &Answer) -> Result<bool, Wide>
    ensures { result ≡ outcome (question.Sup goals.now) answer.now }
{
    match answer {
        Answer::Yes(_by) => Ok(false),
        Answer::No(_point) => Ok(false),
        Answer::Bound {
            at,
            certs,
            case,
            point,
        } => tested_bound(at, goals, certs.as_slice(), *case, point.as_slice()),
        Answer::Unbounded { case, point, ray } => {
            tested_unbounded(goals, *case, point.as_slice(), ray.as_slice())
        }
        Answer::Basis { .. } => Ok(false),
        Answer::Limit(limit) => Ok(is_limit(limit)),
    }
}

/// The same of an answer to the question Stratum.
pub fn stratum_outcome(stratum: &Stratum, answer: &Answer) -> Result<bool, Wide>
    ensures { result ≡ outcome (question.Stratum stratum.now) answer.now }
{
    match answer {
        Answer::Yes(_by) => Ok(false),
        Answer::No(_point) => Ok(false),
        Answer::Bound { .. } => Ok(false),
        Answer::Unbounded { .. } => Ok(false),
        Answer::Basis {
            relations,
            spots,
            free,
        } => tested_basis(
            stratum,
            relations.as_slice(),
            spots.as_slice(),
            free.as_slice(),
        ),
        Answer::Limit(limit) => Ok(is_limit(limit)),
    }
}

/// Whether the product or sum that a limit names is no number of 128 bits.
fn is_limit(limit: &Limit) -> bool
    ensures { result ≡ is_limit limit.now }
{
    match limit {
        Limit::Wide { left, right, times } => {
            if *times {
                left.checked_mul(*right).is_none()
            } else {
                left.checked_add(*right).is_none()
            }
        }
        Limit::Pivots => true,
    }
}

/// Whether the sum of the multiples is a positive constant.
fn tested_yes(rows: &[Row], by: &[i128]) -> Result<bool, Wide>
    ensures { result ≡ tested_yes rows.now by.now }
{
    if !are_multipliers(rows, by) {
        return Ok(false);
    }
    let columns = Columns::of(ColumnSource::OfCase(rows, &[]));
    let cancel = sums_cancel(rows, &columns, by)?;
    let constant = constant_sum(rows, by)?;
    Ok(cancel && 0 < constant)
}

/// Whether the point makes the rows true.
fn tested_no(rows: &[Row], point: &[Ratio]) -> Result<bool, Wide>
    ensures { result ≡ tested_no rows.now point.now }
{
    let columns = Columns::of(ColumnSource::OfCase(rows, &[]));
    if !has_length(&columns, point) {
        return Ok(false);
    }
    meets(rows, &columns, point)
}

fn tested_bound(
    at: &i128,
    goals: &[Goal],
    certs: &[Cert],
    case: u32,
    point: &[Ratio],
) -> Result<bool, Wide>
    ensures { result ≡ tested_bound at.now goals.now certs.now case point.now }
{
    if certs.len() != goals.len() {
        return Ok(false);
    }
    if !tested_certs(at, goals, certs)? {
        return Ok(false);
    }
    match goals.get(case as usize) {
        Some(goal) => tested_reached(at, goal, point),
        None => Ok(false),
    }
}

/// Whether each case is bounded below the next whole number.
fn tested_certs(at: &i128, goals: &[Goal], certs: &[Cert]) -> Result<bool, Wide>
    requires { length certs.now ≡ length goals.now }
    ensures { result ≡ tested_certs at.now goals.now certs.now }
{
    for (i, goal) in goals.iter().enumerate() {
        if !tested_cert(at, goal, &certs[i])? {
            return Ok(false);
        }
    }
    Ok(true)
}

fn tested_cert(at: &i128, goal: &Goal, cert: &Cert) -> Result<bool, Wide>
    ensures { result ≡ tested_cert at.now goal.now cert.now }
{
    if !are_multipliers(goal.rows.as_slice(), cert.by.as_slice()) {
        return Ok(false);
    }
    if cert.scale < 1 {
        return Ok(false);
    }
    if !has_sum(goal, cert)? {
        return Ok(false);
    }
    tested_below(at, cert)
}

/// Whether a certificate's bound is below the whole number after `at`.
fn tested_below(at: &i128, cert: &Cert) -> Result<bool, Wide>
    ensures { result ≡ tested_below at.now cert.now }
{
    let next = sum(*at, 1)?;
    let limit = product(cert.scale, next)?;
    let most = sum(limit, -1)?;
    Ok(cert.sum <= most)
}

/// Whether the point is one of the case.
fn tested_point(goal: &Goal, columns: &Columns<'_>, point: &[Ratio]) -> Result<bool, Wide>
    requires { columns_in columns.now ≡ goal_columns goal.now }
    ensures { result ≡ tested_point goal.now point.now }
{
    if !has_length(columns, point) {
        return Ok(false);
    }
    meets(goal.rows.as_slice(), columns, point)
}

/// Whether the point is one of the case, and its objective is at least `at`.
fn tested_reached(at: &i128, goal: &Goal, point: &[Ratio]) -> Result<bool, Wide>
    ensures { result ≡ tested_reached at.now goal.now point.now }
{
    let columns = Columns::of(ColumnSource::OfCase(goal.rows.as_slice(), goal.objective.terms()));
    if !tested_point(goal, &columns, point)? {
        return Ok(false);
    }
    let value = ratio_value(&columns, point, &goal.objective)?;
    value.is_at_least(*at)
}

fn tested_unbounded(goals: &[Goal], case: u32, point: &[Ratio], ray: &[Ratio]) -> Result<bool, Wide>
    ensures { result ≡ tested_unbounded goals.now case point.now ray.now }
{
    match goals.get(case as usize) {
        Some(goal) => {
            let columns = Columns::of(ColumnSource::OfCase(
                goal.rows.as_slice(),
                goal.objective.terms(),
            ));
            if !tested_point(goal, &columns, point)? {
                return Ok(false);
            }
            tested_ray(goal, &columns, ray)
        }
        None => Ok(false),
    }
}

/// Whether the rows stay true along the ray, and the objective grows.
fn tested_ray(goal: &Goal, columns: &Columns<'_>, ray: &[Ratio]) -> Result<bool, Wide>
    requires { columns_in columns.now ≡ goal_columns goal.now }
    ensures { result ≡ tested_ray goal.now ray.now }
{
    if !has_length(columns, ray) {
        return Ok(false);
    }
    if !meets_slopes(goal.rows.as_slice(), columns, ray)? {
        return Ok(false);
    }
    let slope = slope_at(columns, ray, &goal.objective)?;
    Ok(0 < slope.num())
}

/// Whether the relations are tied in each case, and spots show that there are no others.
fn tested_basis(
    stratum: &Stratum,
    relations: &[Relation],
    spots: &[Spot],
    free: &[Items<Ratio>],
) -> Result<bool, Wide>
    ensures { result ≡ tested_basis stratum.now.cases stratum.now.lower relations.now spots.now
        free.now }
{
    let cases = stratum.cases();
    let lower = stratum.lower();
    let columns = Columns::of(ColumnSource::OfStratum(cases, lower));
    if !have_unknowns(relations, cases, lower) {
        return Ok(false);
    }
    if !is_reduced(relations) {
        return Ok(false);
    }
    if !tested_relations(relations, cases, lower, &columns)? {
        return Ok(false);
    }
    if !tested_spots(spots, cases, &columns)? {
        return Ok(false);
    }
    let basis = Basis {
        relations,
        spots,
        cases,
        lower,
        count: unknown_count(cases, lower),
    };
    tested_free(&basis, &columns, free)
}
