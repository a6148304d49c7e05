ghost use Rattle.std.specs.Prelude.{◌≡◌, List, length, Result, IfOk, IsTrue};
ghost use Rattle.items.specs.Gives.{Gives};
ghost use Rattle.linear_terms.specs.TermError.{cause};
ghost use Rattle.linear_terms.specs.declared.error.TermError.{TermError};
ghost use Rattle.linear_terms.specs.declared.row.Row.{Row as PlainRow};
ghost use Rattle.linear_terms.specs.Expressions.{negation};
ghost use Rattle.transition_formula.specs.Loss.{answer_of};
ghost use Rattle.transition_formula.specs.Transition.{every_column, is_below};
ghost use Rattle.point_rows.specs.Reading.{IsOverColumns, always, contraries_by, contraries_of, contrary_by, negative_row, possible_rows};

use crate::reading::read_row;
use items::Items;
use linear_terms::{Kind, Normal, Poly, Row, TermError, add, negation};
use std::alloc::{AllocError, Global};

/// The rows one of which is true where the row is not, with the posts put in for the columns, in
/// normal form: `-p + 1 <= 0`, and of an equation, behind it, `p + 1 <= 0`. One that is always true
/// is the row `0 <= 0`, and one that never is, is left out; so where there are none, the row is
/// true of all that the posts can be. None where a step of one of them is lost, because it leaves
/// 128 bits or passes degree 4. The one error is want of memory.
pub fn contraries(
    alloc: Global,
    posts: &[Poly],
    row: &Row,
) -> Result<Option<Items<Row>>, AllocError>
    requires { IsOverColumns (length posts.now) row.now }
    ensures { IfOk result (λ rows. rows ≡ contraries_of posts.now row.now) }
{
    rows_if_made(contraries_by(alloc, posts, row))
}

/// The rows, if no step of them was lost.
fn rows_if_made(rows: Result<Items<Row>, TermError>) -> Result<Option<Items<Row>>, AllocError>
    ensures { (stated : Result (List PlainRow) TermError) → Gives cause (λ rows. rows) rows stated
        → IfOk result (λ made. made ≡ answer_of stated) }
{
    match rows {
        Ok(rows) => Ok(Some(rows)),
        Err(TermError::Memory) => Err(AllocError),
        Err(_lost) => Ok(None),
    }
}

fn contraries_by(alloc: Global, posts: &[Poly], row: &Row) -> Result<Items<Row>, TermError>
    requires { IsOverColumns (length posts.now) row.now }
    ensures { Gives cause (λ rows. rows) result
        (contraries_by posts.now row.now.kind row.now.poly) }
{
    let mut rows = positive(alloc, posts, &row.poly)?;
    match row.kind {
        Kind::AtMost => Ok(rows),
        Kind::Equal => {
            let negative = negative(alloc, posts, &row.poly)?;
            rows.append(negative)?;
            Ok(rows)
        }
    }
}

/// The row that says that a polynomial is positive, `-p + 1 <= 0`, if it can be true.
fn positive(alloc: Global, posts: &[Poly], poly: &Poly) -> Result<Items<Row>, TermError>
    requires { IsTrue (every_column (is_below (length posts.now) 0) poly.now) }
    ensures { Gives cause (λ rows. rows) result (contrary_by posts.now (negation poly.now)) }
{
    let row = negation(alloc, poly)?;
    let form = read_row(alloc, posts, &row)?;
    Ok(possible_rows(alloc, form)?)
}

/// The row that says that a polynomial is negative, `p + 1 <= 0`, if it can be true.
fn negative(alloc: Global, posts: &[Poly], poly: &Poly) -> Result<Items<Row>, TermError>
    requires { IsTrue (every_column (is_below (length posts.now) 0) poly.now) }
    ensures { Gives cause (λ rows. rows) result (contrary_by posts.now (negative_row poly.now)) }
{
    let one = Poly::constant(alloc, 1);
    let row = Row {
        poly: add(alloc, poly, &one)?,
        kind: Kind::AtMost,
    };
    let form = read_row(alloc, posts, &row)?;
    Ok(possible_rows(alloc, form)?)
}

/// The row, which is `0 <= 0` where it is always true; none where it never is.
fn possible_rows(alloc: Global, form: Normal) -> Result<Items<Row>, AllocError>
    ensures { IfOk result (λ rows. rows ≡ possible_rows form) }
{
    let mut rows = Items::new(alloc);
    match form {
        Normal::Constant(false) => Ok(rows),
        Normal::Constant(true) => {
            rows.push(always(alloc))?;
            Ok(rows)
        }
        Normal::Kept(row) => {
            rows.push(row)?;
            Ok(rows)
        }
    }
}

/// The row `0 <= 0`.
fn always(alloc: Global) -> Row
    ensures { result ≡ always }
{
    Row {
        poly: Poly::constant(alloc, 0),
        kind: Kind::AtMost,
    }
}
