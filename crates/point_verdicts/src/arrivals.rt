ghost use Rattle.std.specs.Prelude.{◌≡◌, ◌≤◌, IfOk, IsTrue, drop, length};
ghost use Rattle.std.specs.List.{AllByRecursion};
ghost use Rattle.transition_formula.specs.Transition.{fits};
ghost use Rattle.posing.specs.Follows.{Asks};
ghost use Rattle.point_rows.specs.Reading.{AreOverColumns};
ghost use Rattle.point_verdicts.specs.Exclusions.{arriving_case, case_excluded, every, failure_excluded, most_step_auxiliaries};
ghost use Rattle.point_verdicts.specs.Parts.{AreFailures, IsArrivingCase, formula_of_case};

use crate::failures::{are_failures_excluded, formula_of_case};
use farkas_check::Oracle;
use items::Items;
use linear_terms::{Case, Poly, Row};
use point_rows::given_rows;
use posing::{Log, WorkError};
use std::alloc::{AllocError, Global};
use transition_formula::{Formula, FormulaError};

/// How many auxiliaries a case of a step may have where it is judged, 2^30.
const MOST_AUXILIARIES: u32 = 1_073_741_824;

/// Whether the assertion fails in none of the cases of a step, where these rows are true where the
/// step begins, and these are the cases in which the condition is false. The first that is not
/// excluded ends it.
pub(crate) fn are_cases_excluded<O: Oracle>(
    alloc: Global,
    source: &[Row],
    cases: &[Case],
    falsity: &Formula,
    oracle: &mut O,
    log: &mut Log,
) -> Result<bool, WorkError>
    requires source { AreOverColumns falsity.now.from source.now }
    requires cases { AllByRecursion (IsArrivingCase falsity.now.from) cases.now }
    requires falsity { AreFailures falsity.now.from falsity.now }
    ensures { Asks O.asking oracle log result
        (every (case_excluded falsity.now.from falsity.now.cases source.now) cases.now) }
{
    for case in cases {
        if !is_case_excluded(alloc, source, case, falsity, oracle, log)? {
            return Ok(false);
        }
    }
    Ok(true)
}

/// The same of one case. One with more than 2^30 auxiliaries is not excluded.
#[tactic(auto, using(posing::proofs::Following::following), unfolding(crate::specs::Exclusions::case_excluded))]
fn is_case_excluded<O: Oracle>(
    alloc: Global,
    source: &[Row],
    case: &Case,
    falsity: &Formula,
    oracle: &mut O,
    log: &mut Log,
) -> Result<bool, WorkError>
    requires source { AreOverColumns falsity.now.from source.now }
    requires case { IsArrivingCase falsity.now.from case.now }
    requires falsity { AreFailures falsity.now.from falsity.now }
    ensures { Asks O.asking oracle log result
        (case_excluded falsity.now.from falsity.now.cases source.now case.now) }
{
    if case.aux > MOST_AUXILIARIES {
        return Ok(false);
    }
    let posts = case.post.as_slice();
    match given_rows(alloc, posts, case.rows.as_slice(), source)? {
        None => Ok(true),
        Some(given) => is_arrival_excluded(alloc, case, given, falsity, oracle, log),
    }
}

/// The same where these rows are given, in place of the case's own.
fn is_arrival_excluded<O: Oracle>(
    alloc: Global,
    case: &Case,
    given: Items<Row>,
    falsity: &Formula,
    oracle: &mut O,
    log: &mut Log,
) -> Result<bool, WorkError>
    requires case { IsArrivingCase falsity.now.from case.now }
    requires fits { IsTrue
        (fits 0 falsity.now.from (arriving_case falsity.now.from given case.now)) }
    requires few { case.now.aux ≤ most_step_auxiliaries }
    requires falsity { AreFailures falsity.now.from falsity.now }
    ensures { Asks O.asking oracle log result
        (every (failure_excluded (arriving_case falsity.now.from given case.now))
        falsity.now.cases) }
{
    let arriving = arriving_formula(alloc, falsity.from(), case, given)?;
    are_failures_excluded(alloc, &arriving, falsity, oracle, log)
}

/// The case with these rows in place of its own, and without the first so many of its posts.
fn arriving_formula(
    alloc: Global,
    columns: u32,
    case: &Case,
    given: Items<Row>,
) -> Result<Formula, FormulaError>
    requires fits { IsTrue (fits 0 columns (arriving_case columns given case.now)) }
    requires long { columns ≤ length case.now.post }
    ensures { IfOk result
        (λ f. f ≡ formula_of_case 0 columns (arriving_case columns given case.now)) }
{
    let posts = posts_behind(case.post.as_slice(), columns);
    let post = copies(alloc, posts)?;
    let arriving = Case {
        aux: case.aux,
        rows: given,
        post,
    };
    formula_of_case(alloc, 0, columns, arriving)
}

/// The posts behind the first so many.
fn posts_behind(posts: &[Poly], columns: u32) -> &[Poly]
    requires { columns ≤ length posts.now }
    ensures { result.now ≡ drop columns posts.now }
{
    &posts[columns as usize..]
}

fn copies(alloc: Global, posts: &[Poly]) -> Result<Items<Poly>, AllocError>
    ensures { IfOk result (λ made. made ≡ posts.now) }
{
    let mut made = Items::new(alloc);
    for post in posts {
        made.push(post.clone()?)?;
    }
    Ok(made)
}
