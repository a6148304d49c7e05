ghost use Rattle.std.specs.Prelude.{All};
ghost use Rattle.linear_terms.specs.Row.{AreCanonical};
ghost use Rattle.farkas_check.specs.Kept.{ArePolysCanonical, IsCanonicalChange, IsCanonicalStratum, IsPositiveSpot, IsCanonicalGoal, IsCanonicalQuestion, ArePositive, HasPositive};

use crate::{Answer, Change, Goal, Question, Ratio, Spot, Stratum};
use items::Items;
use linear_terms::{Poly, Row};

/// Goes over a question. Afterwards it is known that the monomials of its polynomials stand in
/// print order, each once, as their types keep them.
pub fn canonicity(question: &Question)
    ensures { IsCanonicalQuestion question.now }
{
    match question {
        Question::Infeasible(rows) => canonical_rows(rows.as_slice()),
        Question::Sup(goals) => canonical_goals(goals.as_slice()),
        Question::Stratum(stratum) => canonical_stratum(stratum),
    }
}

/// The same of the goals of a question Sup.
pub fn canonical_goals(goals: &[Goal])
    ensures { All IsCanonicalGoal goals.now }
{
    for goal in goals {
        canonical_goal(goal);
    }
}

fn canonical_goal(goal: &Goal)
    ensures { IsCanonicalGoal goal.now }
{
    canonical_rows(goal.rows.as_slice());
    let _terms = goal.objective.terms();
}

/// The same of the rows of a question Infeasible.
pub fn canonical_rows(rows: &[Row])
    ensures { AreCanonical rows.now }
{
    for row in rows {
        let _terms = row.poly.terms();
    }
}

/// Goes over an answer. Afterwards it is known that its denominators are positive.
pub fn positivity(answer: &Answer)
    ensures { HasPositive answer.now }
{
    match answer {
        Answer::No(point) => positive_ratios(point.as_slice()),
        Answer::Bound { point, .. } => positive_ratios(point.as_slice()),
        Answer::Unbounded { point, ray, .. } => {
            positive_ratios(point.as_slice());
            positive_ratios(ray.as_slice());
        }
        Answer::Basis { spots, free, .. } => {
            positive_spots(spots.as_slice());
            positive_lists(free.as_slice());
        }
        Answer::Yes(_by) => {}
        Answer::Limit(_limit) => {}
    }
}

fn positive_ratios(numbers: &[Ratio])
    ensures { ArePositive numbers.now }
{
    for number in numbers {
        let _den = number.den();
    }
}

/// Shows that a stratum question is in canonical form: its rows, its terms and its lower terms are.
pub fn canonical_stratum(stratum: &Stratum)
    ensures { IsCanonicalStratum stratum.now.cases stratum.now.lower }
{
    canonical_cases(stratum.cases());
    canonical_polys(stratum.lower());
}

fn canonical_cases(cases: &[Change])
    ensures { All IsCanonicalChange cases.now }
{
    for case in cases {
        canonical_case(case);
    }
}

fn canonical_case(case: &Change)
    ensures { IsCanonicalChange case.now }
{
    canonical_rows(case.rows.as_slice());
    canonical_polys(case.terms.as_slice());
}

fn canonical_polys(polys: &[Poly])
    ensures { ArePolysCanonical polys.now }
{
    for poly in polys {
        let _terms = poly.terms();
    }
}

fn positive_spots(spots: &[Spot])
    ensures { All IsPositiveSpot spots.now }
{
    for spot in spots {
        positive_spot(spot);
    }
}

fn positive_spot(spot: &Spot)
    ensures { IsPositiveSpot spot.now }
{
    positive_ratios(spot.at.as_slice());
}

fn positive_lists(free: &[Items<Ratio>])
    ensures { All ArePositive free.now }
{
    for numbers in free {
        positive_list(numbers);
    }
}

fn positive_list(numbers: &Items<Ratio>)
    ensures { ArePositive numbers.now }
{
    positive_ratios(numbers.as_slice());
}
