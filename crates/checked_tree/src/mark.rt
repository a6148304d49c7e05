ghost use Rattle.std.specs.Prelude.{◌≡◌, ◌≤◌, length, IfOk};
ghost use Rattle.checked_tree.specs.Growing.{log_gain};

use items::Items;
use polyhedra::{Log, Note};
use posing::SharedAnswer;
use std::alloc::{AllocError, Global};

/// How many notes and answers a log had.
#[derive(Clone, Copy, Debug)]
pub(crate) struct LogMark {
    pub notes: usize,
    pub answers: usize,
}

impl LogMark {
    pub(crate) fn of(log: &Log) -> LogMark
        ensures { result
            ≡ record { notes = length log.now.notes; answers = length log.now.answers } }
    {
        LogMark {
            notes: log.notes.len(),
            answers: log.answers.len(),
        }
    }

    /// A copy of what a log gained since.
    pub(crate) fn since(self, alloc: Global, log: &Log) -> Result<Log, AllocError>
        requires notes { self.notes ≤ length log.now.notes }
        requires answers { self.answers ≤ length log.now.answers }
        ensures { IfOk result (λ own. own ≡ log_gain self.notes self.answers log.now) }
    {
        let notes = notes_copy(alloc, &log.notes.as_slice()[self.notes..])?;
        let answers = answers_copy(alloc, &log.answers.as_slice()[self.answers..])?;
        Ok(Log { notes, answers })
    }
}

fn notes_copy(alloc: Global, notes: &[Note]) -> Result<Items<Note>, AllocError>
    ensures { IfOk result (λ copy. copy ≡ notes.now) }
{
    let mut copy = Items::new(alloc);
    for note in notes {
        copy.push(note.clone()?)?;
    }
    Ok(copy)
}

fn answers_copy(alloc: Global, answers: &[SharedAnswer]) -> Result<Items<SharedAnswer>, AllocError>
    ensures { IfOk result (λ copy. copy ≡ answers.now) }
{
    let mut copy = Items::new(alloc);
    for answer in answers {
        copy.push(answer.clone()?)?;
    }
    Ok(copy)
}
