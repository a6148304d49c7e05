ghost use Rattle.std.specs.Prelude.{◌≡◌, IfOk};

use farkas_check::Answer;
use std::alloc::AllocError;
use std::marker::Model;
use std::rc::Rc;

/// An answer that a log has in common with those who asked for it. What is seen of it is the
/// answer.
#[derive(Debug, Drop)]
pub struct SharedAnswer {
    pub(crate) shared: Rc<Answer>,
}

impl Model for SharedAnswer {
    ghost use Rattle.farkas_check.specs.declared.answer.Answer.{Answer};

    ghost Value = { Answer };

    ghost view = { λ s. s.shared.value };
}

impl SharedAnswer {
    /// The answer.
    pub fn get(&self) -> &Answer
        ensures { result.now ≡ self.now }
    {
        &self.shared
    }

    /// The answer, copied where it is kept elsewhere too.
    pub fn into_answer(self) -> Result<Answer, AllocError>
        ensures { IfOk result (λ answer. answer ≡ self) }
    {
        Rc::unwrap_or_clone(self.shared)
    }
}

impl Clone for SharedAnswer {
    ghost is_clone = { λ a b. b ≡ a };

    /// The answer is not copied.
    fn clone(&self) -> Result<SharedAnswer, AllocError> {
        let shared = self.shared.clone()?;
        Ok(SharedAnswer { shared })
    }
}
