ghost use Rattle.std.specs.Prelude.{◌≡◌, [], ◌∷◌, ◌++◌, ◌<◌, ◌≤◌, if◌then◌else◌, List, Result, Some, length, slice_get, IfOk};
ghost use Rattle.std.specs.List.{remove, insert};
ghost use Rattle.items.specs.Gives.{Gives};
ghost use Rattle.farkas_check.specs.declared.question.Question.TheVariants.{Infeasible};
ghost use Rattle.linear_terms.specs.declared.error.TermError.{TermError};
ghost use Rattle.linear_terms.specs.declared.row.Row.{Row};
ghost use Rattle.linear_terms.specs.TermError.{cause};
ghost use Rattle.posing.specs.Follows.{Asks};
ghost use Rattle.polyhedra.specs.Thin.{thinning_with, thinning_by, thinning_at, thinned_rows, thinned_case};
ghost use Rattle.polyhedra.specs.Laws.{IsWider, ThinningCovers};

use crate::infeasible::assent;
use crate::losses::note;
use crate::{Log, WorkError};
use farkas_check::{Oracle, Question};
use items::Items;
use linear_terms::{Case, Kind, Row, TermError, negation};
use std::alloc::{AllocError, Global};

/// Leaves out inequalities that the other rows entail, from the last to the first. What is left
/// holds of all that the case holds of.
#[tactic(auto, using(posing::proofs::Following::following))]
pub fn thin<O: Oracle>(
    alloc: Global,
    case: &Case,
    oracle: &mut O,
    log: &mut Log,
) -> Result<Case, WorkError>
    ensures follows { Asks O.asking oracle log result (thinned_case case.now) }
    ensures covers { IfOk result (IsWider case.now) }
{
    let copy = case.clone()?;
    thin_case(alloc, copy, oracle, log)
}

/// A thinned case holds of all that the case holds of, whatever true answers are given.
pub fn coverage_of_thinning()
    ensures { ThinningCovers }
{}

#[tactic(auto, using(posing::proofs::Following::following), unfolding(crate::specs::Thin::thinned_case))]
pub(crate) fn thin_case<O: Oracle>(
    alloc: Global,
    case: Case,
    oracle: &mut O,
    log: &mut Log,
) -> Result<Case, WorkError>
    ensures { Asks O.asking oracle log result (thinned_case case) }
{
    let Case { aux, rows, post } = case;
    let rows = thin_rows(alloc, rows, oracle, log)?;
    Ok(Case { aux, rows, post })
}

fn thin_rows<O: Oracle>(
    alloc: Global,
    rows: Items<Row>,
    oracle: &mut O,
    log: &mut Log,
) -> Result<Items<Row>, WorkError>
    ensures { Asks O.asking oracle log result (thinned_rows rows) }
{
    let mut left = rows;
    let mut place = left.len();
    while place > 0 {
        place -= 1;
        left = thin_at(alloc, left, place, oracle, log)?;
    }
    Ok(left)
}

/// The rows without the one at a place, if it is an inequality that the others entail.
#[tactic(auto, using(posing::proofs::Following::following), unfolding(crate::specs::Thin::thinning_at))]
fn thin_at<O: Oracle>(
    alloc: Global,
    rows: Items<Row>,
    place: usize,
    oracle: &mut O,
    log: &mut Log,
) -> Result<Items<Row>, WorkError>
    ensures { Asks O.asking oracle log result (thinning_at rows place) }
{
    if place >= rows.len() {
        return Ok(rows);
    }
    let row = &rows[place];
    match row.kind {
        Kind::Equal => Ok(rows),
        Kind::AtMost => {
            let negation = negation(alloc, &row.poly);
            thin_by(alloc, rows, place, negation, oracle, log)
        }
    }
}

/// The same by the negation of the row at a place; one that is lost is noted.
fn thin_by<O: Oracle>(
    alloc: Global,
    rows: Items<Row>,
    place: usize,
    negation: Result<Row, TermError>,
    oracle: &mut O,
    log: &mut Log,
) -> Result<Items<Row>, WorkError>
    requires { place < length rows }
    ensures { (stated : Result Row TermError) → Gives cause (λ r. r) negation stated
        → Asks O.asking oracle log result (thinning_by stated place rows) }
{
    match negation {
        Ok(row) => thin_with(alloc, rows, place, row, oracle, log),
        Err(error) => {
            note(alloc, error, log)?;
            Ok(rows)
        }
    }
}

/// The rows are moved into the question and back.
#[tactic(auto, using(posing::proofs::Following::following), unfolding(crate::specs::Thin::thinning_with))]
fn thin_with<O: Oracle>(
    alloc: Global,
    rows: Items<Row>,
    place: usize,
    negation: Row,
    oracle: &mut O,
    log: &mut Log,
) -> Result<Items<Row>, WorkError>
    requires { place < length rows }
    ensures { Asks O.asking oracle log result (thinning_with negation place rows) }
{
    let (others, row) = row_and_others(rows, place);
    let question = question_of(others, negation)?;
    let drops = assent(alloc, &question, oracle, log)?;
    let others = others_of(alloc, question);
    Ok(with_row_unless(others, drops, place, row)?)
}

/// The rows without the one at a place, and that row.
fn row_and_others(rows: Items<Row>, place: usize) -> (Items<Row>, Row)
    requires { place < length rows }
    ensures others { result.0 ≡ remove rows place }
    ensures row { slice_get rows place ≡ Some result.1 }
{
    let mut others = rows.into_vec();
    let row = others.remove(place);
    (Items::from_vec(others), row)
}

fn question_of(others: Items<Row>, negation: Row) -> Result<Question, AllocError>
    ensures { IfOk result (λ question. question ≡ Infeasible (others ++ negation ∷ [])) }
{
    let mut rows = others;
    rows.push(negation)?;
    Ok(Question::Infeasible(rows))
}

/// The rows of the question without the last.
fn others_of(alloc: Global, question: Question) -> Items<Row>
    ensures { (others : List Row) (last : Row) → question ≡ Infeasible (others ++ last ∷ [])
        → result ≡ others }
{
    let mut rows = rows_of(alloc, question);
    let _last = rows.pop();
    rows
}

fn rows_of(alloc: Global, question: Question) -> Items<Row>
    ensures { (rows : List Row) → question ≡ Infeasible rows → result ≡ rows }
{
    match question {
        Question::Infeasible(rows) => rows,
        _ => Items::new(alloc),
    }
}

/// The other rows, with the row at its place unless it is dropped.
fn with_row_unless(
    others: Items<Row>,
    drops: bool,
    place: usize,
    row: Row,
) -> Result<Items<Row>, AllocError>
    requires { place ≤ length others }
    ensures { IfOk result (λ left. left ≡ (if drops then others else insert others place row)) }
{
    if drops {
        return Ok(others);
    }
    let mut rows = others.into_vec();
    rows.insert(place, row)?;
    Ok(Items::from_vec(rows))
}
