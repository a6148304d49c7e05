ghost use Rattle.std.specs.Prelude.{◌≡◌, ◌<◌, length, map, IfOk, IsTrue, Err};
ghost use Rattle.std.specs.List.{AllByRecursion};
ghost use Rattle.farkas_check.specs.Meaning.{IsTrueAnswer};
ghost use Rattle.farkas_check.specs.Tested.{Passes, passes};
ghost use Rattle.wire.specs.Replays.{answer_at, count_of, next_place};

use farkas_check::{Answer, AskError, Limit, Oracle, Question, test};
use items::Items;
use std::alloc::{AllocError, Global};
use std::marker::Model;

/// An oracle that hands out listed answers in order, each where it passes the test of the question.
/// It refuses where none is left or the next one does not pass, and then stays at that answer.
#[derive(Drop)]
pub struct ListedAnswers {
    answers: Items<Answer>,
    places: Option<Items<usize>>,
    taken: usize,
    refusals: u64,
}

impl Model for ListedAnswers {
    ghost use Rattle.wire.specs.Replays.{Replayed, answers_left};

    ghost Value = { Replayed };

    ghost view = { λ r.
        record {
          left = answers_left r.answers r.places r.taken;
          taken = r.taken;
          refusals = r.refusals;
        } };
}

impl ListedAnswers {
    /// Hands out the answers in order.
    pub fn new(answers: Items<Answer>) -> ListedAnswers
        ensures { result ≡ record { left = answers; taken = 0; refusals = 0 } }
    {
        ListedAnswers {
            answers,
            places: None,
            taken: 0,
            refusals: 0,
        }
    }

    /// Hands out the answers at places in order, each as often as it is listed.
    pub fn with_order(answers: Items<Answer>, order: Items<usize>) -> ListedAnswers
        requires { AllByRecursion (λ place. place < length answers) order }
        ensures { result
            ≡ record { left = map (answer_at answers) order; taken = 0; refusals = 0 } }
    {
        ListedAnswers {
            answers,
            places: Some(order),
            taken: 0,
            refusals: 0,
        }
    }

    /// How many answers were handed out.
    pub fn taken_count(&self) -> usize
        ensures { result ≡ self.now.taken }
    {
        self.taken
    }

    /// How many are left.
    #[tactic(auto, using(crate::proofs::AnswersLeft::replays))]
    pub fn left_count(&self) -> usize
        ensures { result ≡ length self.now.left }
    {
        answer_count(&self.answers, &self.places).saturating_sub(self.taken)
    }
}

fn answer_count(answers: &Items<Answer>, places: &Option<Items<usize>>) -> usize
    ensures { result ≡ count_of answers.now places.now }
{
    match places {
        Some(places) => places.len(),
        None => answers.len(),
    }
}

/// Whether the answer at a place passes.
fn passes_at(answers: &[Answer], place: usize, question: &Question) -> bool
    ensures exact { result ≡ passes question.now (answer_at answers.now place) }
    ensures passing { IsTrue result → Passes question.now (answer_at answers.now place) }
    ensures sound { IsTrue result → IsTrueAnswer question.now (answer_at answers.now place) }
{
    match answers.get(place) {
        Some(answer) => test(question, answer),
        None => test(question, &Answer::Limit(Limit::Pivots)),
    }
}

/// A copy of the answer at a place.
fn copy_at(alloc: Global, answers: &[Answer], place: usize) -> Result<Answer, AllocError>
    ensures { IfOk result (λ copy. copy ≡ answer_at answers.now place) }
{
    match answers.get(place) {
        Some(answer) => answer.clone(),
        None => Ok(Answer::Limit(Limit::Pivots)),
    }
}

/// The place of the next answer, where one is left.
fn next_place(answers: &[Answer], places: &Option<Items<usize>>, taken: usize) -> usize
    requires { taken < count_of answers.now places.now }
    ensures { result ≡ next_place places.now taken }
{
    match places {
        Some(places) => places.as_slice()[taken],
        None => taken,
    }
}

impl Oracle for ListedAnswers {
    ghost use Rattle.std.specs.Prelude.{◌∷◌, OnErr, Some};
    ghost use Rattle.farkas_check.specs.Refusals.{HasCause};
    ghost use Rattle.farkas_check.specs.declared.oracle.AskError.TheVariants.{Refused};
    ghost use Rattle.wire.specs.Replays.{IsMissing};

    ghost asking = { record {
      refusals = λ r. r.refusals;
      declines = λ r question. IsMissing r.left
          question;
      allows = Passes;
      left = λ r. Some r.left;
    } };

    #[tactic(auto, using(crate::proofs::AnswersLeft::replays))]
    fn ask(&mut self, alloc: Global, question: &Question) -> Result<Answer, AskError>
        ensures passes { IfOk result (λ answer. Passes question.now answer) }
        ensures sound { IfOk result (λ answer. IsTrueAnswer question.now answer) }
        ensures cause { HasCause self.old.refusals self.new.refusals result }
        ensures taken { IfOk result (λ answer. self.old.left ≡ answer ∷ self.new.left) }
        ensures kept { OnErr result (self.new.left ≡ self.old.left) }
        ensures declined { result ≡ Err Refused → IsMissing self.new.left question.now }
        // So memory can be wanting only where the next answer passes.
        ensures missing { IsMissing self.old.left question.now → result ≡ Err Refused }
    {
        if self.taken < answer_count(&self.answers, &self.places) {
            let place = next_place(self.answers.as_slice(), &self.places, self.taken);
            if passes_at(self.answers.as_slice(), place, question) {
                let Ok(answer) = copy_at(alloc, self.answers.as_slice(), place) else {
                    return Err(AskError::Memory);
                };
                self.taken += 1;
                return Ok(answer);
            }
        }
        self.refusals = self.refusals.saturating_add(1);
        Err(AskError::Refused)
    }
}
