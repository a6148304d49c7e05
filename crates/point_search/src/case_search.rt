ghost use Rattle.std.specs.Prelude.{◌≡◌, length};
ghost use Rattle.std.specs.List.{list_all};
ghost use Rattle.transition_formula.specs.Transition.{every_column, is_below};

use farkas_check::{Answer, Goal, Oracle, Question};
use finder::Finder;
use items::Items;
use linear_terms::{Poly, Row, TermError, scale};
use point_rows::{contraries, given_rows};
use std::alloc::{AllocError, Global};
use std::mem;

/// The greatest whole number that is not above an objective's supremum over points of cases.
#[derive(Clone, Copy, Debug, PartialEq, Eq)]
pub(crate) enum WholeTop {
    /// There is no point.
    Nowhere,
    At(i128),
    /// There is no supremum, or it is not known.
    Endless,
}

/// The rows of a case and those given at the point where its step begins, and what was asked of them
/// last: a search begins where the last one ended.
#[derive(Drop)]
pub(crate) struct CaseSearch {
    finder: Finder,
    rows: Items<Row>,
    /// How many rows the case has. Those that were given stand behind them.
    own: usize,
    /// The numbers of the rows that were given.
    given: Items<u32>,
    /// Where it is known that no point makes the rows true, the numbers of those that were given
    /// which show it.
    empty_by: Option<Items<u32>>,
}

/// The rows that are left at a point, and their numbers.
#[derive(Clone, Copy)]
pub(crate) struct GivenRows<'a> {
    pub(crate) rows: &'a [Row],
    pub(crate) numbers: &'a [u32],
}

/// The search over rows.
pub(crate) fn search_over(alloc: Global, rows: Items<Row>) -> CaseSearch {
    let own = rows.len();
    search_by(alloc, rows, own, Items::new(alloc))
}

/// The search over a case's rows and those at the point where its step begins.
pub(crate) fn search_under(
    alloc: Global,
    posts: &[Poly],
    own: &[Row],
    given: GivenRows,
) -> Result<CaseSearch, AllocError> {
    let mut rows = copies_of(alloc, own)?;
    let mut numbers = Items::new(alloc);
    for (place, number) in given.numbers.iter().enumerate() {
        if place < given.rows.len() {
            let one = &given.rows[place..place + 1];
            if !add_given(alloc, posts, one, *number, &mut rows, &mut numbers)? {
                return no_points(alloc, *number);
            }
        }
    }
    Ok(search_by(alloc, rows, own.len(), numbers))
}

/// Adds what a given row says where its columns are the posts; whether it can be true.
fn add_given(
    alloc: Global,
    posts: &[Poly],
    one: &[Row],
    number: u32,
    rows: &mut Items<Row>,
    numbers: &mut Items<u32>,
) -> Result<bool, AllocError> {
    match read_rows(alloc, posts, one)? {
        Some(read) => {
            for row in read {
                if !is_listed(rows.as_slice(), &row) {
                    rows.push(row)?;
                    numbers.push(number)?;
                }
            }
            Ok(true)
        }
        None => Ok(false),
    }
}

/// What rows say where their columns are the posts.
fn read_rows(
    alloc: Global,
    posts: &[Poly],
    rows: &[Row],
) -> Result<Option<Items<Row>>, AllocError> {
    if are_over(posts.len(), rows) {
        given_rows(alloc, posts, &[], rows)
    } else {
        Ok(Some(Items::new(alloc)))
    }
}

/// Whether the row is among others.
pub(crate) fn is_listed(rows: &[Row], row: &Row) -> bool {
    rows.iter().any(|known| known == row)
}

/// The search over no points, where the given row of this number is false.
fn no_points(alloc: Global, number: u32) -> Result<CaseSearch, AllocError> {
    let mut by = Items::new(alloc);
    by.push(number)?;
    Ok(CaseSearch {
        finder: Finder::new(alloc),
        rows: Items::new(alloc),
        own: 0,
        given: Items::new(alloc),
        empty_by: Some(by),
    })
}

/// The search over rows, of which the last ones were given.
fn search_by(alloc: Global, rows: Items<Row>, own: usize, given: Items<u32>) -> CaseSearch {
    CaseSearch {
        finder: Finder::new(alloc),
        rows,
        own,
        given,
        empty_by: None,
    }
}

fn answer_to(
    alloc: Global,
    question: &Question,
    finder: &mut Finder,
) -> Result<Answer, AllocError> {
    match finder.ask(alloc, question) {
        Ok(answer) => Ok(answer),
        Err(_memory) => Err(AllocError),
    }
}

/// The numbers of the given rows whose multiplier is not 0.
fn reasons_by(
    alloc: Global,
    own: usize,
    given: &[u32],
    by: &[i128],
) -> Result<Items<u32>, AllocError> {
    let mut numbers = Items::new(alloc);
    for (place, number) in given.iter().enumerate() {
        let at = own.saturating_add(place);
        if at < by.len() && by[at] != 0 {
            numbers.push(*number)?;
        }
    }
    Ok(numbers)
}

/// A copy of rows.
pub(crate) fn copies_of(alloc: Global, rows: &[Row]) -> Result<Items<Row>, AllocError> {
    let mut copies = Items::new(alloc);
    for row in rows {
        copies.push(row.clone()?)?;
    }
    Ok(copies)
}

/// Whether the rows have no columns but the first so many.
fn are_over(columns: usize, rows: &[Row]) -> bool
    ensures { result ≡ list_all (λ row. every_column (is_below columns 0) row.poly) rows.now }
{
    rows.iter().all(|row| is_over(columns, row))
}

fn is_over(columns: usize, row: &Row) -> bool
    ensures { result ≡ every_column (is_below columns 0) row.now.poly }
{
    row.poly.is_covered(columns, 0)
}

/// The rows of a question.
fn rows_of(alloc: Global, question: Question) -> Items<Row> {
    match question {
        Question::Infeasible(rows) => rows,
        _ => Items::new(alloc),
    }
}

/// How great an objective gets by an answer.
fn top_in(answer: &Answer) -> WholeTop {
    match answer {
        Answer::Bound { at, .. } => WholeTop::At(*at),
        _ => WholeTop::Endless,
    }
}

/// The question how great an objective gets where rows are true.
fn question_of(alloc: Global, rows: Items<Row>, objective: Poly) -> Result<Question, AllocError> {
    let mut goals = Items::new(alloc);
    goals.push(Goal { rows, objective })?;
    Ok(Question::Sup(goals))
}

/// The rows of the one goal of a question.
fn goal_rows(alloc: Global, question: Question) -> Items<Row> {
    match question {
        Question::Sup(goals) => rows_of_first(alloc, goals),
        _ => Items::new(alloc),
    }
}

fn rows_of_first(alloc: Global, goals: Items<Goal>) -> Items<Row> {
    let mut goals = goals;
    match goals.pop() {
        Some(goal) => goal.rows,
        None => Items::new(alloc),
    }
}

impl CaseSearch {
    /// How great an objective gets.
    pub(crate) fn top(&mut self, alloc: Global, objective: Poly) -> Result<WholeTop, AllocError> {
        if self.is_empty() {
            return Ok(WholeTop::Nowhere);
        }
        let answer = self.answer(alloc, objective)?;
        if self.finds_no_points(alloc, &answer)? {
            return Ok(WholeTop::Nowhere);
        }
        Ok(top_in(&answer))
    }

    /// Whether it is known that no point makes the rows true.
    pub(crate) fn is_empty(&self) -> bool {
        self.empty_by.is_some()
    }

    /// Whether no point makes the rows true, where an answer about an objective leaves it open.
    /// There are points for the most part, so it is asked only here.
    fn finds_no_points(&mut self, alloc: Global, answer: &Answer) -> Result<bool, AllocError> {
        match answer {
            Answer::Limit(_) => {
                self.find_points(alloc)?;
                Ok(self.is_empty())
            }
            _ => Ok(false),
        }
    }

    /// Asks whether no point makes the rows true. If so, it is known from now on.
    pub(crate) fn find_points(&mut self, alloc: Global) -> Result<(), AllocError> {
        let question = Question::Infeasible(mem::replace(&mut self.rows, Items::new(alloc)));
        let found = answer_to(alloc, &question, &mut self.finder)?;
        self.rows = rows_of(alloc, question);
        if let Answer::Yes(by) = &found {
            let given = self.given.as_slice();
            self.empty_by = Some(reasons_by(alloc, self.own, given, by.as_slice())?);
        }
        Ok(())
    }

    /// The answer about how great an objective gets.
    fn answer(&mut self, alloc: Global, objective: Poly) -> Result<Answer, AllocError> {
        let rows = mem::replace(&mut self.rows, Items::new(alloc));
        let question = question_of(alloc, rows, objective)?;
        let answer = answer_to(alloc, &question, &mut self.finder)?;
        self.rows = goal_rows(alloc, question);
        Ok(answer)
    }

    /// Whether the row is true at all points, where its columns are the posts.
    pub(crate) fn shows(
        &mut self,
        alloc: Global,
        posts: &[Poly],
        row: &Row,
    ) -> Result<bool, AllocError> {
        Ok(self.reasons_for(alloc, posts, row)?.is_some())
    }

    /// The numbers of given rows by which the row is true at all points, where its columns are the
    /// posts; none where it is not shown.
    pub(crate) fn reasons_for(
        &mut self,
        alloc: Global,
        posts: &[Poly],
        row: &Row,
    ) -> Result<Option<Items<u32>>, AllocError> {
        match contraries_at(alloc, posts, row)? {
            Some(rows) => self.reasons_against_all(alloc, rows),
            None => Ok(None),
        }
    }

    fn reasons_against_all(
        &mut self,
        alloc: Global,
        rows: Items<Row>,
    ) -> Result<Option<Items<u32>>, AllocError> {
        let mut all = Items::new(alloc);
        for row in rows {
            match self.reasons_against(alloc, row)? {
                Some(by) => all.append(by)?,
                None => return Ok(None),
            }
        }
        Ok(Some(all))
    }

    /// By which given rows the row, an inequality, is true at no point.
    fn reasons_against(
        &mut self,
        alloc: Global,
        row: Row,
    ) -> Result<Option<Items<u32>>, AllocError> {
        match scale(alloc, &row.poly, -1) {
            Ok(objective) => self.reasons_for_negative(alloc, objective),
            Err(TermError::Memory) => Err(AllocError),
            Err(_lost) => Ok(None),
        }
    }

    /// By which given rows the objective is negative at all points.
    fn reasons_for_negative(
        &mut self,
        alloc: Global,
        objective: Poly,
    ) -> Result<Option<Items<u32>>, AllocError> {
        if self.empty_by.is_none() {
            let answer = self.answer(alloc, objective)?;
            if !self.finds_no_points(alloc, &answer)? {
                return self.reasons_in(alloc, &answer);
            }
        }
        match &self.empty_by {
            Some(by) => Ok(Some(by.clone()?)),
            None => Ok(None),
        }
    }

    /// By which given rows a bound below 0 is shown; none where the answer is none.
    fn reasons_in(&self, alloc: Global, answer: &Answer) -> Result<Option<Items<u32>>, AllocError> {
        match answer {
            Answer::Bound { at, certs, .. } => match certs.as_slice().first() {
                Some(cert) if *at < 0 => {
                    let given = self.given.as_slice();
                    let by = reasons_by(alloc, self.own, given, cert.by.as_slice())?;
                    Ok(Some(by))
                }
                _ => Ok(None),
            },
            _ => Ok(None),
        }
    }
}

fn contraries_at(
    alloc: Global,
    posts: &[Poly],
    row: &Row,
) -> Result<Option<Items<Row>>, AllocError> {
    if is_over(posts.len(), row) {
        contraries(alloc, posts, row)
    } else {
        Ok(None)
    }
}
