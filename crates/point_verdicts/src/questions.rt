ghost use Rattle.std.specs.Prelude.{◌≡◌};
ghost use Rattle.posing.specs.Follows.{Asks};
ghost use Rattle.polyhedra.specs.Infeasibility.{is_yes};
ghost use Rattle.point_verdicts.specs.Exclusions.{refutation, twofold_refutation};

use context::with_products;
use farkas_check::{Answer, Oracle, Question};
use items::Items;
use linear_terms::Row;
use posing::{Log, WorkError, ask};
use std::alloc::Global;

/// Whether rows are called infeasible, alone or, by a second question, with their products.
#[tactic(auto, using(posing::proofs::Following::following), unfolding(crate::specs::Exclusions::twofold_refutation))]
pub(crate) fn is_refuted_twofold<O: Oracle>(
    alloc: Global,
    rows: Items<Row>,
    oracle: &mut O,
    log: &mut Log,
) -> Result<bool, WorkError>
    ensures { Asks O.asking oracle log result (twofold_refutation rows) }
{
    let first = rows.clone()?;
    if is_refuted(alloc, first, oracle, log)? {
        return Ok(true);
    }
    let all = with_products(alloc, &rows)?;
    is_refuted(alloc, all, oracle, log)
}

/// Whether the answer calls rows infeasible. Nothing is asked where there are none, and they are
/// not.
#[tactic(auto, using(posing::proofs::Following::following))]
fn is_refuted<O: Oracle>(
    alloc: Global,
    rows: Items<Row>,
    oracle: &mut O,
    log: &mut Log,
) -> Result<bool, WorkError>
    ensures { Asks O.asking oracle log result (refutation rows) }
{
    if rows.is_empty() {
        return Ok(false);
    }
    let answer = ask(alloc, &Question::Infeasible(rows), oracle, log)?;
    Ok(is_yes(&answer))
}

fn is_yes(answer: &Answer) -> bool
    ensures { result ≡ is_yes answer.now }
{
    matches!(answer, Answer::Yes(_))
}
