ghost use Rattle.std.specs.Prelude.{◌≡◌, IfOk, IfSome};
ghost use Rattle.farkas_check.specs.declared.question.Question.TheVariants as question;
ghost use Rattle.finder.specs.Found.{IsFound, IsFoundBySimplex};

use crate::near::NearRows;
use crate::prints::print_of;
use crate::{KnownAnswers, weight};
use elimination::stratum;
use farkas_check::{Answer, AskError, Oracle, Question, Stratum, truth_of_passing};
use linear_terms::Row;
use simplex::{Endings, answer_with};
use std::alloc::{AllocError, Global};
use std::cell::RefCell;
use std::rc::Rc;

/// Answers each question by exact rational simplex, and by elimination where a question about
/// relations met a limit. What an answer is, and when it is a limit, is told by `IsFound`. It keeps
/// where the last suprema ended, and may keep its answers about rows and what serves when all rows
/// but the last come again; what it may answer does not depend on that.
#[derive(Drop)]
pub struct Finder {
    endings: Endings,
    known: Option<Rc<RefCell<KnownAnswers>>>,
    near: NearRows,
}

impl Finder {
    /// A finder that was asked nothing yet and keeps no answers, which takes no memory.
    pub fn new(alloc: Global) -> Finder {
        Finder {
            endings: Endings::new(alloc),
            known: None,
            near: NearRows::new(alloc),
        }
    }

    /// A finder that was asked nothing yet and keeps its answers about rows.
    pub fn keeping(alloc: Global) -> Result<Finder, AllocError> {
        let known = Rc::new(alloc, RefCell::new(KnownAnswers::new(alloc)))?;
        Ok(Finder {
            endings: Endings::new(alloc),
            known: Some(known),
            near: NearRows::new(alloc),
        })
    }

    /// Another finder that was asked nothing yet. What one of them keeps, the other knows.
    pub fn beside(&self, alloc: Global) -> Result<Finder, AllocError> {
        let known = match &self.known {
            Some(known) => Some(known.clone()?),
            None => None,
        };
        Ok(Finder {
            endings: Endings::new(alloc),
            known,
            near: NearRows::new(alloc),
        })
    }

    /// The weights of what this finder and those beside it were asked, added up; 0 where it keeps
    /// nothing.
    pub fn weight_so_far(&self) -> u64 {
        match &self.known {
            Some(known) => match known.try_borrow() {
                Ok(known) => known.weight,
                Err(_) => 0,
            },
            None => 0,
        }
    }
}

/// Adds the weight of a question to those of what was asked.
fn count(question: &Question, known: &Option<Rc<RefCell<KnownAnswers>>>) {
    if let Some(known) = known {
        if let Ok(mut known) = known.try_borrow_mut() {
            known.weight = known.weight.saturating_add(weight(question));
        }
    }
}

impl Oracle for Finder {
    ghost use Rattle.std.specs.Prelude.{None};

    // It never refuses, and does not tell what it will answer.
    ghost asking = { record {
      refusals = λ s. 0;
      declines = λ s question. ⊥;
      allows = IsFound;
      left = λ s. None;
    } };

    fn ask(&mut self, alloc: Global, question: &Question) -> Result<Answer, AskError> {
        truth_of_passing();
        count(question, &self.known);
        let near = &mut self.near;
        match answer_for(alloc, question, &mut self.endings, &self.known, near) {
            Ok(found) => Ok(found),
            Err(_) => Err(AskError::Memory),
        }
    }
}

/// The kept answer to an equal question about rows, or else the answer that is found.
fn answer_for(
    alloc: Global,
    question: &Question,
    endings: &mut Endings,
    known: &Option<Rc<RefCell<KnownAnswers>>>,
    near: &mut NearRows,
) -> Result<Answer, AllocError>
    ensures { IfOk result (IsFound question.now) }
{
    match (question, known) {
        (Question::Infeasible(rows), Some(known)) => {
            answer_for_rows(alloc, question, rows.as_slice(), endings, known, near)
        }
        _ => finder_answer(alloc, question, endings),
    }
}

/// The kept answer to the question about these rows, or else the answer that is found, which is
/// then kept.
fn answer_for_rows(
    alloc: Global,
    asked: &Question,
    rows: &[Row],
    endings: &mut Endings,
    known: &RefCell<KnownAnswers>,
    near: &mut NearRows,
) -> Result<Answer, AllocError>
    requires { asked.now ≡ question.Infeasible rows.now }
    ensures { IfOk result (IsFound asked.now) }
{
    let print = print_of(rows);
    if let Some(kept) = kept_answer(print, rows, known)? {
        return Ok(kept);
    }
    let found = match near.answer_to(alloc, asked, rows)? {
        Some(found) => found,
        None => {
            let found = finder_answer(alloc, asked, endings)?;
            near.note(&found)?;
            found
        }
    };
    keep_answer(alloc, print, rows, &found, known)?;
    Ok(found)
}

fn kept_answer(
    print: u64,
    rows: &[Row],
    known: &RefCell<KnownAnswers>,
) -> Result<Option<Answer>, AllocError>
    ensures { IfOk result (λ kept. IfSome kept (IsFound (question.Infeasible rows.now))) }
{
    match known.try_borrow() {
        Ok(known) => known.answer_to(print, rows),
        Err(_) => Ok(None),
    }
}

fn keep_answer(
    alloc: Global,
    print: u64,
    rows: &[Row],
    found: &Answer,
    known: &RefCell<KnownAnswers>,
) -> Result<(), AllocError>
    requires { IsFound (question.Infeasible rows.now) found.now }
{
    match known.try_borrow_mut() {
        Ok(mut known) => known.note(alloc, print, rows, found),
        Err(_) => Ok(()),
    }
}

/// The answer of simplex, or that of elimination where a question about relations met a limit.
fn finder_answer(
    alloc: Global,
    question: &Question,
    endings: &mut Endings,
) -> Result<Answer, AllocError>
    ensures { IfOk result (IsFound question.now) }
{
    let found = answer_with(alloc, question, endings)?;
    match question {
        Question::Stratum(asked) => finder_answer_for_strata(alloc, asked, found),
        _ => Ok(found),
    }
}

/// The answer of simplex where it is no limit, and else that of elimination.
fn finder_answer_for_strata(
    alloc: Global,
    asked: &Stratum,
    found: Answer,
) -> Result<Answer, AllocError>
    requires { IsFoundBySimplex (question.Stratum asked.now) found }
    ensures { IfOk result (IsFound (question.Stratum asked.now)) }
{
    match found {
        Answer::Limit(_limit) => stratum(alloc, asked),
        basis => Ok(basis),
    }
}
