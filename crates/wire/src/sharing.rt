ghost use Rattle.std.specs.Prelude.{◌≡◌, List, [], ◌∷◌, ◌++◌, IfOk, OnOk};
ghost use Rattle.farkas_check.specs.declared.answer.Answer.{Answer};
ghost use Rattle.wire.specs.Sharing.{IsShared};

use farkas_check::Answer;
use indexmap::IndexSet;
use items::Items;
use std::alloc::{AllocError, Global};

/// Puts an answer among the distinct ones, and its place there behind those of earlier answers.
fn push_shared(
    distinct: &mut IndexSet<Answer>,
    order: &mut Items<usize>,
    answer: Answer,
) -> Result<(), AllocError>
    ensures { OnOk result ((before : List Answer) → IsShared before distinct.old.keys order.old
        → IsShared (before ++ answer ∷ []) distinct.new.keys order.new) }
{
    let (place, _) = distinct.insert_full(answer)?;
    order.push(place)?;
    Ok(())
}

fn distinct_answers(alloc: Global, distinct: IndexSet<Answer>) -> Result<Items<Answer>, AllocError>
    ensures { IfOk result (λ listed. listed ≡ distinct.keys) }
{
    let distinct = distinct.into_iter().collect::<Vec<Answer>>(alloc)?;
    Ok(Items::from_vec(distinct))
}

/// The distinct answers in the order of their first use, and for each answer its place among these:
/// how a file of the second version and `ListedAnswers::with_order` have them.
pub fn share(
    alloc: Global,
    answers: Items<Answer>,
) -> Result<(Items<Answer>, Items<usize>), AllocError>
    ensures { IfOk result (λ shared. IsShared answers shared.0 shared.1) }
{
    let mut distinct = IndexSet::new(alloc);
    let mut order = Items::new(alloc);
    for answer in answers {
        push_shared(&mut distinct, &mut order, answer)?;
    }
    Ok((distinct_answers(alloc, distinct)?, order))
}
