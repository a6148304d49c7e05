ghost use Rattle.std.specs.Prelude.{◌≡◌, IsTrue, IfOk, IfSome};
ghost use Rattle.farkas_check.specs.declared.question.Question.TheVariants as question;
ghost use Rattle.finder.specs.Found.{IsFound};

use crate::copies::copies_of;
use farkas_check::Answer;
use items::Items;
use linear_terms::Row;
use std::alloc::{AllocError, Global};
use std::collections::HashMap;
use std::marker::Model;

/// How many terms the kept rows have, before they are forgotten.
const MOST_TERMS: usize = 1_000_000;

/// An answer that was found to the question whether no point makes these rows true.
#[derive(Drop)]
pub(crate) struct KnownAnswer {
    rows: Items<Row>,
    answer: Answer,
}

// Clauses see nothing of it.
impl Model for KnownAnswer {
    ghost use Rattle.std.specs.Prelude.{⊤};
    ghost use Rattle.farkas_check.specs.declared.question.Question.TheVariants as question;
    ghost use Rattle.finder.specs.Found.{IsFound};

    ghost Value = { ⊤ };

    ghost view = { λ _. tt };

    ghost invariant = { λ k. IsFound (question.Infeasible k.rows) k.answer };
}

impl KnownAnswer {
    /// A copy of the answer, if it was found for equal rows.
    fn answer_to(&self, rows: &[Row]) -> Result<Option<Answer>, AllocError>
        ensures { IfOk result (λ kept. IfSome kept (IsFound (question.Infeasible rows.now))) }
    {
        if are_rows(self.rows.as_slice(), rows) {
            let copy = self.answer.clone()?;
            Ok(Some(copy))
        } else {
            Ok(None)
        }
    }
}

/// Answers that were found to questions about rows, and how much was asked.
#[derive(Drop)]
pub struct KnownAnswers {
    by_print: HashMap<u64, KnownAnswer>,
    terms: usize,
    /// The weights of all questions, added up.
    pub(crate) weight: u64,
}

impl KnownAnswers {
    /// Nothing is known, which takes no memory.
    pub fn new(alloc: Global) -> KnownAnswers {
        KnownAnswers {
            by_print: HashMap::new(alloc),
            terms: 0,
            weight: 0,
        }
    }

    /// A copy of the answer to the question about these rows, if it is kept.
    pub(crate) fn answer_to(&self, print: u64, rows: &[Row]) -> Result<Option<Answer>, AllocError>
        ensures { IfOk result (λ kept. IfSome kept (IsFound (question.Infeasible rows.now))) }
    {
        match self.by_print.get(&print) {
            Some(known) => known.answer_to(rows),
            None => Ok(None),
        }
    }

    /// Keeps a copy of an answer. Where rows of so many terms are kept that there is no room, they
    /// are forgotten first.
    pub(crate) fn note(
        &mut self,
        alloc: Global,
        print: u64,
        rows: &[Row],
        answer: &Answer,
    ) -> Result<(), AllocError>
        requires { IsFound (question.Infeasible rows.now) answer.now }
    {
        if MOST_TERMS < self.terms {
            self.by_print.clear();
            self.terms = 0;
        }
        let next = known_answer(alloc, rows, answer)?;
        self.by_print.insert(print, next)?;
        self.terms = self.terms.saturating_add(term_count(rows));
        Ok(())
    }
}

/// How many terms rows have.
fn term_count(rows: &[Row]) -> usize {
    let mut count: usize = 0;
    for row in rows {
        count = count.saturating_add(row.poly.terms().len());
    }
    count
}

fn known_answer(alloc: Global, rows: &[Row], answer: &Answer) -> Result<KnownAnswer, AllocError>
    requires { IsFound (question.Infeasible rows.now) answer.now }
{
    let rows = copies_of(alloc, rows)?;
    let answer = answer.clone()?;
    Ok(KnownAnswer { rows, answer })
}

fn are_rows(own: &[Row], rows: &[Row]) -> bool
    ensures { IsTrue result → own.now ≡ rows.now }
{
    own == rows
}
