ghost use Rattle.std.specs.Prelude.{◌≡◌, IfOk};
ghost use Rattle.posing.specs.Follows.{Asks};
ghost use Rattle.posing.specs.Logs.{Adds};
ghost use Rattle.polyhedra.specs.Infeasibility.{assent, is_yes, limits_of, noted_answer};

use crate::{Log, Note, WorkError};
use farkas_check::{Answer, Oracle, Question};
use items::Items;
use posing::{SharedAnswer, ask, ask_shared};
use std::alloc::{AllocError, Global};

/// Whether the answer to a question is yes. A limit is noted.
#[tactic(auto, using(posing::proofs::Following::following), unfolding(crate::specs::Infeasibility::assent))]
pub(crate) fn assent<O: Oracle>(
    alloc: Global,
    question: &Question,
    oracle: &mut O,
    log: &mut Log,
) -> Result<bool, WorkError>
    ensures { Asks O.asking oracle log result (assent question.now) }
{
    let answer = noted_answer(alloc, question, oracle, log)?;
    Ok(is_yes(answer.get()))
}

/// The answer to a question, which the log has too. A limit is noted.
#[tactic(auto, using(posing::proofs::Following::following), unfolding(crate::specs::Infeasibility::noted_answer))]
pub(crate) fn noted_answer<O: Oracle>(
    alloc: Global,
    question: &Question,
    oracle: &mut O,
    log: &mut Log,
) -> Result<SharedAnswer, WorkError>
    ensures { Asks O.asking oracle log result (noted_answer question.now) }
{
    let answer = ask_shared(alloc, question, oracle, log)?;
    note_limit(alloc, answer.get(), log)?;
    Ok(answer)
}

/// The same of a question that is asked once, and a copy of its answer.
pub(crate) fn answer_once<O: Oracle>(
    alloc: Global,
    question: Question,
    oracle: &mut O,
    log: &mut Log,
) -> Result<Answer, WorkError>
    ensures { Asks O.asking oracle log result (noted_answer question) }
{
    let answer = ask(alloc, &question, oracle, log)?;
    note_limit(alloc, &answer, log)?;
    Ok(answer)
}

fn note_limit(alloc: Global, answer: &Answer, log: &mut Log) -> Result<(), AllocError>
    ensures { Adds (limits_of answer.now) log.old log.new result }
{
    let notes = limits_of(alloc, answer)?;
    log.add_notes(notes)
}

/// The note of a limit.
fn limits_of(alloc: Global, answer: &Answer) -> Result<Items<Note>, AllocError>
    ensures { IfOk result (λ notes. notes ≡ limits_of answer.now) }
{
    let mut notes = Items::new(alloc);
    if let Answer::Limit(limit) = answer {
        notes.push(Note::Limit(*limit))?;
    }
    Ok(notes)
}

fn is_yes(answer: &Answer) -> bool
    ensures { result ≡ is_yes answer.now }
{
    matches!(answer, Answer::Yes(_))
}
