ghost use Rattle.std.specs.Prelude.{◌≡◌};

use farkas_check::{Answer, AskError, Oracle, Question, test};
use items::Items;
use std::alloc::Global;

/// An oracle that hands out listed answers, the last first, where they pass.
#[derive(Debug, Drop)]
pub struct Listed {
    answers: Items<Answer>,
    refusals: u64,
}

impl Listed {
    /// The first answer to be handed out stands last.
    pub fn new(answers: Items<Answer>) -> Listed
        ensures { result ≡ record { answers = answers; refusals = 0 } }
    {
        Listed {
            answers,
            refusals: 0,
        }
    }
}

impl Oracle for Listed {
    ghost use Rattle.std.specs.Prelude.{Some, reverse, ⊤};
    ghost use Rattle.farkas_check.specs.Tested.{Passes};

    ghost asking = { record {
      refusals = λ s. s.refusals;
      declines = λ s question.
          ⊤;
      allows = Passes;
      left = λ s. Some (reverse s.answers);
    } };

    fn ask(&mut self, _alloc: Global, question: &Question) -> Result<Answer, AskError> {
        let passes = match self.answers.as_slice().last() {
            Some(answer) => test(question, answer),
            None => false,
        };
        if passes {
            if let Some(answer) = self.answers.pop() {
                return Ok(answer);
            }
        }
        self.refusals = self.refusals.saturating_add(1);
        Err(AskError::Refused)
    }
}
