ghost use Rattle.std.specs.Prelude.{◌≡◌, ◌*◌, ◌-◌, ◌^◌, length, min};
ghost use Rattle.std.specs.List.{sum_by};
ghost use Rattle.finder.specs.Weights.{weight_of};

use farkas_check::{Change, Goal, Question};

/// How much it takes to answer a question, roughly; no more than 64 bits hold.
pub fn weight(question: &Question) -> u64
    ensures { result ≡ min (2 ^ 64 - 1) (weight_of question.now) }
{
    match question {
        Question::Infeasible(rows) => product(rows.len(), rows.len()),
        Question::Sup(goals) => goals_weight(goals.as_slice()),
        Question::Stratum(asked) => cases_weight(asked.cases()),
    }
}

/// The product, no more than 64 bits hold.
fn product(left: usize, right: usize) -> u64
    ensures { result ≡ min (2 ^ 64 - 1) (left * right) }
{
    (left as u64).saturating_mul(right as u64)
}

fn goals_weight(goals: &[Goal]) -> u64
    ensures { result ≡ min (2 ^ 64 - 1) (sum_by (λ goal. length goal.rows) goals.now) }
{
    let mut weight: u64 = 0;
    for goal in goals {
        weight = weight.saturating_add(goal.rows.len() as u64);
    }
    weight
}

fn cases_weight(cases: &[Change]) -> u64
    ensures { result
        ≡ min (2 ^ 64 - 1) (sum_by (λ case. length case.rows * length case.terms) cases.now) }
{
    let mut weight: u64 = 0;
    for case in cases {
        weight = weight.saturating_add(product(case.rows.len(), case.terms.len()));
    }
    weight
}
