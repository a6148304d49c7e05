ghost use Rattle.std.specs.Prelude.{◌≡◌, IfOk, IfSome};
ghost use Rattle.farkas_check.specs.declared.question.Question.TheVariants as question;
ghost use Rattle.finder.specs.Found.{IsFound};

use crate::copies::copies_of;
use crate::prints::print_of;
use farkas_check::{Answer, Cert, Goal, Question, test};
use items::Items;
use linear_terms::{Kind, Poly, Row, TermError, scale};
use simplex::{Endings, sup_with};
use std::alloc::{AllocError, Global};
use std::mem;

/// The rows but the last one of the question about rows that was asked last. Where they come again
/// with another last row, it is enough to ask how little that one gets over them, which begins where
/// the last search over them ended.
#[derive(Drop)]
pub(crate) struct NearRows {
    /// The number by which they are found.
    print: u64,
    /// The rows, if they came twice.
    rows: Items<Row>,
    endings: Endings,
    /// The multipliers by which they were refuted without the last row.
    refuted_by: Option<Items<i128>>,
}

impl NearRows {
    /// Nothing was asked yet, which takes no memory.
    pub(crate) fn new(alloc: Global) -> NearRows {
        NearRows {
            print: 0,
            rows: Items::new(alloc),
            endings: Endings::new(alloc),
            refuted_by: None,
        }
    }

    /// How rows are refuted, if all but the last one are those of the question before and it is found
    /// by that. The answer passed its test.
    pub(crate) fn answer_to(
        &mut self,
        alloc: Global,
        asked: &Question,
        rows: &[Row],
    ) -> Result<Option<Answer>, AllocError>
        requires { asked.now ≡ question.Infeasible rows.now }
        ensures { IfOk result (λ found. IfSome found (IsFound asked.now)) }
    {
        let Some((last, front)) = rows.split_last() else {
            return Ok(None);
        };
        let print = print_of(front);
        if self.print != print {
            self.print = print;
            self.refuted_by = None;
            return Ok(None);
        }
        match self.answer_over(alloc, front, last)? {
            Some(found) => Ok(passing_answer(asked, found)),
            None => Ok(None),
        }
    }

    /// How the rows are refuted with one more, before the test.
    fn answer_over(
        &mut self,
        alloc: Global,
        front: &[Row],
        last: &Row,
    ) -> Result<Option<Answer>, AllocError> {
        if let Some(by) = &self.refuted_by {
            return Ok(Some(refutation(by.clone()?, 0)?));
        }
        if last.kind == Kind::Equal {
            return Ok(None);
        }
        if self.rows.as_slice() != front {
            self.rows = copies_of(alloc, front)?;
            self.endings = Endings::new(alloc);
        }
        match scale(alloc, &last.poly, -1) {
            Ok(objective) => self.answer_by_supremum(alloc, objective),
            Err(TermError::Memory) => Err(AllocError),
            Err(_lost) => Ok(None),
        }
    }

    /// The same by how great an objective gets over the rows, where one more row says that it is not
    /// negative.
    fn answer_by_supremum(
        &mut self,
        alloc: Global,
        objective: Poly,
    ) -> Result<Option<Answer>, AllocError> {
        let rows = mem::replace(&mut self.rows, Items::new(alloc));
        let mut goals = Items::new(alloc);
        goals.push(Goal { rows, objective })?;
        let found = sup_with(alloc, goals.as_slice(), &mut self.endings)?;
        if let Some(goal) = goals.pop() {
            self.rows = goal.rows;
        }
        refutation_by(found)
    }

    /// Notes by what the rows but the last one are refuted, if an answer tells that.
    pub(crate) fn note(&mut self, answer: &Answer) -> Result<(), AllocError> {
        if let Answer::Yes(by) = answer {
            if by.as_slice().last() == Some(&0) {
                let mut front = by.clone()?;
                front.pop();
                self.refuted_by = Some(front);
            }
        }
        Ok(())
    }
}

/// How the rows are refuted with one more, if minus its polynomial gets less than 0 over them. A
/// point is sought from the rows on.
fn refutation_by(found: Answer) -> Result<Option<Answer>, AllocError> {
    match found {
        Answer::Bound { at, certs, .. } if at < 0 => refutation_in(certs),
        _ => Ok(None),
    }
}

fn refutation_in(certs: Items<Cert>) -> Result<Option<Answer>, AllocError> {
    let mut certs = certs;
    match certs.pop() {
        Some(Cert { scale, by, .. }) => Ok(Some(refutation(by, scale)?)),
        None => Ok(None),
    }
}

/// The multipliers of rows, and that of the last one.
fn refutation(by: Items<i128>, last: i128) -> Result<Answer, AllocError> {
    let mut by = by;
    by.push(last)?;
    Ok(Answer::Yes(by))
}

/// The answer, if it is no limit and passes its test.
fn passing_answer(asked: &Question, found: Answer) -> Option<Answer>
    ensures { IfSome result (IsFound asked.now) }
{
    match &found {
        Answer::Limit(_) => None,
        _ => {
            if test(asked, &found) {
                Some(found)
            } else {
                None
            }
        }
    }
}
