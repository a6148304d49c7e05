use farkas_check::{Answer, AskError, Oracle, Question};
use finder::{Finder, weight};
use std::alloc::Global;

/// A finder that is asked no more than so much. It refuses a question that is too much.
#[derive(Drop)]
pub(crate) struct Asker {
    finder: Finder,
    /// How much may still be asked, as weights.
    pub(crate) left: u64,
    refusals: u64,
}

impl Asker {
    pub(crate) fn new(finder: Finder, left: u64) -> Asker {
        Asker {
            finder,
            left,
            refusals: 0,
        }
    }
}

impl Oracle for Asker {
    ghost use Rattle.std.specs.Prelude.{None, ⊤};
    ghost use Rattle.farkas_check.specs.Tested.{Passes};

    // It does not tell what it will answer, nor what it refuses.
    ghost asking = { record {
      refusals = λ s. s.refusals;
      declines = λ s question. ⊤;
      allows = Passes;
      left = λ s. None;
    } };

    fn ask(&mut self, alloc: Global, question: &Question) -> Result<Answer, AskError> {
        let weight = weight(question);
        if self.left < weight {
            self.refusals = self.refusals.saturating_add(1);
            return Err(AskError::Refused);
        }
        self.left -= weight;
        match self.finder.ask(alloc, question) {
            Ok(answer) => Ok(answer),
            Err(_memory) => Err(AskError::Memory),
        }
    }
}
