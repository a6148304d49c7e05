ghost use Rattle.std.specs.Prelude.{List};
ghost use Rattle.posing.specs.declared.note.Note.{Note};
ghost use Rattle.posing.specs.Posing.{answer_to};
ghost use Rattle.posing.specs.Follows.{Asks, Follows};
ghost use Rattle.posing.specs.Logs.{log_of};

use crate::{Log, SharedAnswer, WorkError};
use farkas_check::{Answer, Limit, Oracle, Question};
use items::Items;
use std::alloc::Global;
use std::mem;
use std::rc::Rc;

/// Asks a question and logs its answer. An answer that is taken is logged, also where memory is
/// wanting after it.
#[tactic(auto, using(crate::proofs::Following::following))]
pub fn ask<O: Oracle>(
    alloc: Global,
    question: &Question,
    oracle: &mut O,
    log: &mut Log,
) -> Result<Answer, WorkError>
    ensures { Asks O.asking oracle log result (answer_to question.now) }
{
    let shared = ask_shared(alloc, question, oracle, log)?;
    Ok(shared.get().clone()?)
}

/// The same, where the answer is not copied: the log has it in common with who asked.
pub fn ask_shared<O: Oracle>(
    alloc: Global,
    question: &Question,
    oracle: &mut O,
    log: &mut Log,
) -> Result<SharedAnswer, WorkError>
    ensures { Asks O.asking oracle log result (answer_to question.now) }
{
    let mut answers = mem::replace(&mut log.answers, Items::new(alloc)).into_vec();
    let result = answer_into(alloc, question, oracle, &mut answers);
    log.answers = Items::from_vec(answers);
    result
}

/// There is room for the answer before it is asked for.
fn answer_into<O: Oracle>(
    alloc: Global,
    question: &Question,
    oracle: &mut O,
    answers: &mut Vec<SharedAnswer>,
) -> Result<SharedAnswer, WorkError>
    ensures { (notes : List Note)
        → Follows O.asking oracle.old oracle.new (log_of notes answers.old.items)
        (log_of notes answers.new.items) result (answer_to question.now) }
{
    answers.reserve(1)?;
    let mut shared = Rc::new(alloc, Answer::Limit(Limit::Pivots))?;
    let Some(room) = Rc::get_mut(&mut shared) else {
        return Err(WorkError::Memory);
    };
    let answer = oracle.ask(alloc, question)?;
    *room = answer;
    let logged = SharedAnswer { shared };
    let copy: Result<_, _> = logged.clone();
    match answers.push(logged) {
        Ok(()) => Ok(copy?),
        Err(_full) => unreachable!(),
    }
}
