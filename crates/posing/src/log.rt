ghost use Rattle.std.specs.Prelude.{◌≡◌, [], IfOk};
ghost use Rattle.posing.specs.Logs.{Adds, loss_notes};

use crate::{Note, SharedAnswer};
use items::Items;
use std::alloc::{AllocError, Global};
use transition_formula::Loss;

/// What calls noted, and the answers that they took, both in order.
#[derive(Debug, Drop)]
pub struct Log {
    pub notes: Items<Note>,
    pub answers: Items<SharedAnswer>,
}

impl Log {
    /// A log without notes and answers, which takes no memory.
    pub fn new(alloc: Global) -> Log
        ensures { result ≡ record { notes = []; answers = [] } }
    {
        Log {
            notes: Items::new(alloc),
            answers: Items::new(alloc),
        }
    }

    /// Adds notes. Where memory is wanting, none is added.
    pub fn add_notes(&mut self, notes: Items<Note>) -> Result<(), AllocError>
        ensures { Adds notes self.old self.new result }
    {
        self.notes.append(notes)
    }

    /// Adds losses as notes. Where memory is wanting, none is added.
    pub fn add_losses(&mut self, alloc: Global, losses: &[Loss]) -> Result<(), AllocError>
        ensures { Adds (loss_notes losses.now) self.old self.new result }
    {
        let notes = notes_of(alloc, losses)?;
        self.add_notes(notes)
    }
}

fn notes_of(alloc: Global, losses: &[Loss]) -> Result<Items<Note>, AllocError>
    ensures { IfOk result (λ notes. notes ≡ loss_notes losses.now) }
{
    let mut notes = Items::new(alloc);
    for loss in losses {
        notes.push(Note::Loss(*loss))?;
    }
    Ok(notes)
}
