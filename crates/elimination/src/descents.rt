ghost use Rattle.std.specs.Prelude.{◌≡◌, ◌≤◌, ◌^◌, length, unsigned_abs, Ok, IfOk, MatchOption};
ghost use Rattle.std.specs.List.{AllByRecursion};
ghost use Rattle.linear_terms.specs.Row.{AreCanonical};
ghost use Rattle.farkas_check.specs.Tested.{goal_columns};
ghost use Rattle.elimination.specs.Descents.{AreSmallLines, IsDescent, HasNoDescent, line_row, line_goal, point_of, IsLineCorner, AreRatiosBelow};
ghost use Rattle.elimination.specs.Equations.{values_to, least_numerators};

use crate::null_vectors::poly_from;
use crate::numerators::least_numerators;
use crate::points::entry_values;
use farkas_check::{Goal, Ratio, canonical_rows, case_columns};
use items::Items;
use linear_terms::{Kind, Poly, Row};
use simplex::{SearchStop, Supremum, supremum_of};
use std::alloc::{AllocError, Global};

/// Small whole numbers that make each line negative, or nothing where there are none.
pub(crate) fn descent(
    alloc: Global,
    count: usize,
    lines: &[Items<i128>],
) -> Result<Option<Items<i128>>, AllocError>
    requires { AreSmallLines count lines.now }
    ensures { IfOk result
        (λ found. MatchOption found (HasNoDescent count lines.now) (IsDescent count lines.now)) }
{
    let goal = line_goal(alloc, count, lines)?;
    canonical_rows(goal.rows.as_slice());
    match corner_of(alloc, count, lines, &goal)? {
        Some(point) => {
            let numbers = numbers_at(alloc, count, &goal, point.as_slice())?;
            Ok(Some(numbers))
        }
        None => Ok(None),
    }
}

// ---- the goal

/// The goal whose rows say of each line that it is at most -1.
fn line_goal(alloc: Global, count: usize, lines: &[Items<i128>]) -> Result<Goal, AllocError>
    requires { AreSmallLines count lines.now }
    ensures { IfOk result (λ goal. goal ≡ line_goal lines.now) }
{
    let _count = count;
    let mut rows = Items::new(alloc);
    for line in lines {
        rows.push(line_row(alloc, line.as_slice())?)?;
    }
    let objective = Poly::constant(alloc, 0);
    Ok(Goal { rows, objective })
}

fn line_row(alloc: Global, line: &[i128]) -> Result<Row, AllocError>
    requires few { length line.now ≤ 4 }
    requires small { AllByRecursion (λ z. unsigned_abs z ≤ 4) line.now }
    ensures { IfOk result (λ row. row ≡ line_row line.now) }
{
    let mut numbers = Items::from_slice(alloc, line)?;
    numbers.push(1)?;
    match poly_from(alloc, 0, numbers.as_slice()) {
        Ok(poly) => Ok(Row {
            poly,
            kind: Kind::AtMost,
        }),
        Err(_memory) => Err(AllocError),
    }
}

// ---- its corner

/// A corner of the goal, where its rows have a point.
fn corner_of(
    alloc: Global,
    count: usize,
    lines: &[Items<i128>],
    goal: &Goal,
) -> Result<Option<Items<Ratio>>, AllocError>
    requires small { AreSmallLines count lines.now }
    requires goal { goal.now ≡ line_goal lines.now }
    requires canonical { AreCanonical goal.now.rows }
    ensures { IfOk result
        (λ found. MatchOption found (HasNoDescent count lines.now) (IsLineCorner lines.now)) }
{
    let _count = count;
    let _lines = lines;
    match supremum_of(alloc, goal, i128::MAX as u128) {
        Ok(found) => Ok(point_of(found)),
        Err(SearchStop::Wide(_step)) => Ok(None),
        Err(SearchStop::Memory) => Err(AllocError),
    }
}

fn point_of(found: Supremum) -> Option<Items<Ratio>>
    ensures { result ≡ point_of found }
{
    match found {
        Supremum::Bound(_cert, point) => Some(point),
        Supremum::Unbounded(point, _ray) => Some(point),
        Supremum::Empty => None,
        Supremum::Pivots => None,
    }
}

// ---- whole numbers

/// The numbers of a point at the columns, over their least common denominator.
fn numbers_at(
    alloc: Global,
    count: usize,
    goal: &Goal,
    point: &[Ratio],
) -> Result<Items<i128>, AllocError>
    requires count { count ≤ 4 }
    requires small { AreRatiosBelow (20 ^ 5) point.now }
    ensures { IfOk result
        (λ numbers. least_numerators (values_to (goal_columns goal.now) point.now count)
        ≡ Ok numbers) }
{
    let columns = case_columns(alloc, goal.rows.as_slice(), goal.objective.terms())?;
    let values = entry_values(alloc, columns.as_slice(), point, count)?;
    over_common(alloc, values.as_slice())
}

/// Numerators of ratios over their least common denominator. Those of small ratios are small, so
/// want of memory is the one error.
fn over_common(alloc: Global, ratios: &[Ratio]) -> Result<Items<i128>, AllocError>
    requires { AreRatiosBelow (20 ^ 5) ratios.now }
    ensures { IfOk result (λ numbers. least_numerators ratios.now ≡ Ok numbers) }
{
    match least_numerators(alloc, ratios) {
        Ok(numbers) => Ok(numbers),
        Err(SearchStop::Memory) => Err(AllocError),
        Err(SearchStop::Wide(_step)) => unreachable!(),
    }
}
