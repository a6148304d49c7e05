ghost use Rattle.std.specs.Prelude.{◌≡◌, ◌++◌, IfOk};
ghost use Rattle.kept_groups.specs.Kept.{answers_in};
ghost use Rattle.summary_cache.specs.Kept.{last_analysis, answers_for};

use farkas_check::Answer;
use items::Items;
use kept_groups::{KeptGroups, KeptPart};
use posing::SharedAnswer;
use report::Report;
use std::alloc::{AllocError, Global};

/// What is kept of a text: its groups, its report, and the answers behind those of the groups, for
/// the entries and the verdicts.
#[derive(Drop)]
pub struct Last {
    pub groups: KeptGroups,
    pub report: Report,
    pub rest: Items<SharedAnswer>,
}

/// The report of a text, and all its answers in the order of their questions.
#[derive(Debug, Drop)]
pub struct Analysed {
    pub report: Report,
    pub answers: Items<Answer>,
}

impl Last {
    /// A copy of all its answers, in the order of their questions.
    pub(crate) fn answers(&self, alloc: Global) -> Result<Items<Answer>, AllocError>
        ensures { IfOk result (λ answers. answers ≡ answers_for self.now) }
    {
        let answers = copied_answers(alloc, self.groups.parts.as_slice())?;
        with_copies(answers, &self.rest)
    }

    /// Its report and all its answers.
    pub(crate) fn into_analysed(self, alloc: Global) -> Result<Analysed, AllocError>
        ensures { IfOk result (λ made. made ≡ last_analysis self) }
    {
        let Last {
            groups,
            report,
            rest,
        } = self;
        let KeptGroups { parts, .. } = groups;
        let answers = joined_answers(alloc, parts)?;
        let answers = with_own(answers, rest)?;
        Ok(Analysed { report, answers })
    }
}

/// The answers of parts, copied.
fn copied_answers(alloc: Global, parts: &[KeptPart]) -> Result<Items<Answer>, AllocError>
    ensures { IfOk result (λ answers. answers ≡ answers_in parts.now) }
{
    let mut answers = Items::new(alloc);
    for part in parts {
        answers = with_copies(answers, &part.answers)?;
    }
    Ok(answers)
}

/// Copies of answers behind others.
fn with_copies(answers: Items<Answer>, more: &[SharedAnswer]) -> Result<Items<Answer>, AllocError>
    ensures { IfOk result (λ made. made ≡ answers ++ more.now) }
{
    let mut made = answers;
    for answer in more {
        made.push(answer.get().clone()?)?;
    }
    Ok(made)
}

/// The answers of parts, which are given up.
fn joined_answers(alloc: Global, parts: Items<KeptPart>) -> Result<Items<Answer>, AllocError>
    ensures { IfOk result (λ answers. answers ≡ answers_in parts) }
{
    let mut answers = Items::new(alloc);
    for part in parts {
        let KeptPart { answers: own, .. } = part;
        answers = with_own(answers, own)?;
    }
    Ok(answers)
}

/// Answers that are given up behind others.
fn with_own(answers: Items<Answer>, more: Items<SharedAnswer>) -> Result<Items<Answer>, AllocError>
    ensures { IfOk result (λ made. made ≡ answers ++ more) }
{
    let mut made = answers;
    for answer in more {
        made.push(answer.into_answer()?)?;
    }
    Ok(made)
}
