ghost use Rattle.std.specs.Prelude.{◌≡◌, IfOk};
ghost use Rattle.farkas_check.specs.declared.question.Question.TheVariants.{Infeasible};
ghost use Rattle.posing.specs.Follows.{Asks};
ghost use Rattle.posing.specs.Posing.{answer_to};
ghost use Rattle.polyhedra.specs.Infeasibility.{is_yes};
ghost use Rattle.context.specs.SecondQuestions.{proved_if, second_rows, second_verdict, with_products};

use farkas_check::{Answer, Oracle, Question};
use items::Items;
use linear_terms::Row;
use posing::{Log, WorkError, ask};
use report::Verdict;
use row_products::products;
use std::alloc::{AllocError, Global};

/// The verdict after the second question about its case, which asks with products of the rows. A
/// Yes proves it; any other answer leaves it as it is, and is not noted.
#[tactic(auto, using(posing::proofs::Following::following), unfolding(crate::specs::SecondQuestions::second_verdict))]
pub(crate) fn second_verdict<O: Oracle>(
    alloc: Global,
    verdict: Verdict,
    oracle: &mut O,
    log: &mut Log,
) -> Result<Verdict, WorkError>
    ensures { Asks O.asking oracle log result (second_verdict verdict) }
{
    let rows = second_rows(alloc, &verdict)?;
    if rows.is_empty() {
        return Ok(verdict);
    }
    let answer = answer_on(alloc, rows, oracle, log)?;
    Ok(verdict_with_products(answer, verdict))
}

/// The rows that are asked about; none where the verdict is proved.
fn second_rows(alloc: Global, verdict: &Verdict) -> Result<Items<Row>, AllocError>
    ensures { IfOk result (λ rows. rows ≡ second_rows verdict.now) }
{
    match verdict {
        Verdict::Proved => Ok(Items::new(alloc)),
        Verdict::Unproved { case, .. } => with_products(alloc, &case.rows),
        Verdict::UnprovedLimit { case, .. } => with_products(alloc, &case.rows),
    }
}

/// Rows with their products; none where they have no products.
pub fn with_products(alloc: Global, rows: &Items<Row>) -> Result<Items<Row>, AllocError>
    ensures { IfOk result (λ all. all ≡ with_products rows.now) }
{
    let products = products(alloc, rows.as_slice())?;
    if products.is_empty() {
        return Ok(products);
    }
    let mut all = rows.clone()?;
    all.append(products)?;
    Ok(all)
}

/// The answer whether rows are infeasible.
fn answer_on<O: Oracle>(
    alloc: Global,
    rows: Items<Row>,
    oracle: &mut O,
    log: &mut Log,
) -> Result<Answer, WorkError>
    ensures { Asks O.asking oracle log result (answer_to (Infeasible rows)) }
{
    ask(alloc, &Question::Infeasible(rows), oracle, log)
}

/// Proved where the answer is Yes; else the verdict stands.
fn verdict_with_products(answer: Answer, verdict: Verdict) -> Verdict
    ensures { result ≡ proved_if (is_yes answer) verdict }
{
    match answer {
        Answer::Yes(_) => Verdict::Proved,
        _ => verdict,
    }
}
