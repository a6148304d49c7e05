ghost use Rattle.std.specs.Prelude.{◌≡◌, [], ◌∷◌, ◌++◌, IfOk, map};
ghost use Rattle.farkas_check.specs.declared.question.Question.TheVariants.{Infeasible};
ghost use Rattle.posing.specs.Follows.{Asks};
ghost use Rattle.question_examples.specs.Calls.{exclusion, with_exclusion, exclusions, first_excluded, limits_of, is_yes};

use farkas_check::{Answer, Oracle, Question};
use items::Items;
use linear_terms::Row;
use posing::{Log, Note, WorkError, ask};
use std::alloc::{AllocError, Global};

/// Whether the answer calls rows infeasible. A limit is noted.
#[tactic(auto, using(posing::proofs::Following::following), unfolding(crate::specs::Calls::exclusion))]
pub fn exclusion<O: Oracle>(
    alloc: Global,
    rows: &Items<Row>,
    oracle: &mut O,
    log: &mut Log,
) -> Result<bool, WorkError>
    ensures { Asks O.asking oracle log result (exclusion rows.now) }
{
    let question = question_of(rows)?;
    let answer = ask(alloc, &question, oracle, log)?;
    log.add_notes(limits_of(alloc, &answer)?)?;
    Ok(is_yes(&answer))
}

fn question_of(rows: &Items<Row>) -> Result<Question, AllocError>
    ensures { IfOk result (λ question. question ≡ Infeasible rows.now) }
{
    let rows = rows.clone()?;
    Ok(Question::Infeasible(rows))
}

fn limits_of(alloc: Global, answer: &Answer) -> Result<Items<Note>, AllocError>
    ensures { IfOk result (λ notes. notes ≡ limits_of answer.now) }
{
    let mut notes = Items::new(alloc);
    if let Answer::Limit(limit) = answer {
        notes.push(Note::Limit(*limit))?;
    }
    Ok(notes)
}

fn is_yes(answer: &Answer) -> bool
    ensures { result ≡ is_yes answer.now }
{
    matches!(answer, Answer::Yes(_))
}

/// Whether each list of rows is infeasible.
pub fn exclusions<O: Oracle>(
    alloc: Global,
    lists: &[Items<Row>],
    oracle: &mut O,
    log: &mut Log,
) -> Result<Items<bool>, WorkError>
    ensures { Asks O.asking oracle log result (exclusions lists.now) }
{
    let mut made = Items::new(alloc);
    for rows in lists {
        made = with_exclusion(alloc, made, rows, oracle, log)?;
    }
    Ok(made)
}

#[tactic(auto, using(posing::proofs::Following::following), unfolding(crate::specs::Calls::with_exclusion))]
fn with_exclusion<O: Oracle>(
    alloc: Global,
    made: Items<bool>,
    rows: &Items<Row>,
    oracle: &mut O,
    log: &mut Log,
) -> Result<Items<bool>, WorkError>
    ensures { Asks O.asking oracle log result (with_exclusion made rows.now) }
{
    let excluded = exclusion(alloc, rows, oracle, log)?;
    Ok(with_last(made, excluded)?)
}

fn with_last(made: Items<bool>, last: bool) -> Result<Items<bool>, AllocError>
    ensures { IfOk result (λ all. all ≡ made ++ last ∷ []) }
{
    let mut all = made;
    all.push(last)?;
    Ok(all)
}

/// The place of the first list that is infeasible; those behind it are not asked for.
pub fn first_excluded<O: Oracle>(
    alloc: Global,
    lists: &[Items<Row>],
    oracle: &mut O,
    log: &mut Log,
) -> Result<Option<usize>, WorkError>
    ensures { Asks O.asking oracle log result (first_excluded 0 lists.now) }
{
    for (place, rows) in lists.iter().enumerate() {
        if exclusion(alloc, rows, oracle, log)? {
            return Ok(Some(place));
        }
    }
    Ok(None)
}
