ghost use Rattle.std.specs.Prelude.{◌≡◌, ◌+◌, ◌++◌, ◌≤◌, pos, [], ◌∷◌, map, length, unsigned_abs, Ok, All, IfOk};
ghost use Rattle.std.specs.List.{AllByRecursion};
ghost use Rattle.items.specs.Gives.{Gives};
ghost use Rattle.linear_terms.specs.TermError.{cause};
ghost use Rattle.farkas_check.specs.Ratios.{IsLowest, whole};
ghost use Rattle.elimination.specs.Equations.{AreRegularLines, IsSolution, StandsBehind, with_column, poly_from, equation_of, values_to};
ghost use Rattle.elimination.specs.Probes.{IsRegular, IsNullVector, number_at};

use crate::numerators::least_numerators;
use crate::points::entry_values;
use farkas_check::{Answer, Ratio, case_columns};
use items::Items;
use linear_terms::{Col, Kind, Mono, Poly, Row, TermError, add, scale};
use simplex::SearchStop;
use std::alloc::{AllocError, Global};

/// The numbers without common divisor, the last of them positive, that each of a few small
/// equations makes 0. The one error is want of memory.
pub(crate) fn null_vector(alloc: Global, lines: &[Items<i128>]) -> Result<Items<i128>, AllocError>
    requires few { length lines.now ≤ 6 }
    requires wide { AllByRecursion (λ line. length line ≡ length lines.now + 1) lines.now }
    requires small { AllByRecursion (AllByRecursion (λ z. unsigned_abs z ≤ 4)) lines.now }
    requires regular { IsRegular (length lines.now) (number_at lines.now) }
    ensures { IfOk result (IsNullVector lines.now) }
{
    let values = solution(alloc, lines)?;
    over_least(alloc, lines, values.as_slice())
}

/// The ratios, and 1 behind them, that the lines make 0: the numbers of a point of their equations.
fn solution(alloc: Global, lines: &[Items<i128>]) -> Result<Items<Ratio>, AllocError>
    requires { AreRegularLines lines.now }
    ensures { IfOk result (IsSolution lines.now) }
{
    let rows = equations(alloc, lines)?;
    solution_of(alloc, lines, rows.as_slice())
}

/// The same by the equations of the lines.
fn solution_of(
    alloc: Global,
    lines: &[Items<i128>],
    rows: &[Row],
) -> Result<Items<Ratio>, AllocError>
    requires lines { AreRegularLines lines.now }
    requires rows { rows.now ≡ map equation_of lines.now }
    ensures { IfOk result (IsSolution lines.now) }
{
    let columns = case_columns(alloc, rows, &[])?;
    let answer = simplex::infeasible(alloc, rows)?;
    let Answer::No(point) = &answer else {
        unreachable!()
    };
    with_one(alloc, columns.as_slice(), point.as_slice(), lines.len())
}

/// The equations that say that lines of numbers are 0, over as many entry columns.
fn equations(alloc: Global, lines: &[Items<i128>]) -> Result<Items<Row>, AllocError>
    requires { AreRegularLines lines.now }
    ensures { IfOk result (λ rows. rows ≡ map equation_of lines.now) }
{
    let mut rows = Items::new(alloc);
    for line in lines {
        rows.push(equation(alloc, line.as_slice())?)?;
    }
    Ok(rows)
}

fn equation(alloc: Global, line: &[i128]) -> Result<Row, AllocError>
    requires few { length line.now ≤ 7 }
    requires small { AllByRecursion (λ z. unsigned_abs z ≤ 4) line.now }
    ensures { IfOk result (λ row. row ≡ equation_of line.now) }
{
    match poly_from(alloc, 0, line) {
        Ok(poly) => Ok(Row {
            poly,
            kind: Kind::Equal,
        }),
        Err(_memory) => Err(AllocError),
    }
}

/// The polynomial that has the numbers at the entry columns from a place on, and the last one as
/// its constant.
pub(crate) fn poly_from(alloc: Global, place: u32, numbers: &[i128]) -> Result<Poly, TermError>
    requires few { place + length numbers.now ≤ 7 }
    requires small { AllByRecursion (λ z. unsigned_abs z ≤ 4) numbers.now }
    ensures { Gives cause (λ p. p) result (Ok (poly_from place numbers.now)) }
{
    match numbers {
        [] => Ok(Poly::constant(alloc, 0)),
        [rest] => Ok(Poly::constant(alloc, *rest)),
        [first, more @ ..] => {
            let behind = poly_from(alloc, place + 1, more)?;
            with_column(alloc, place, first, &behind)
        }
    }
}

/// A polynomial with one more entry column, in front.
fn with_column(alloc: Global, place: u32, number: &i128, behind: &Poly) -> Result<Poly, TermError>
    requires small { unsigned_abs number.now ≤ 4 }
    requires rest { unsigned_abs behind.now.rest ≤ 4 }
    requires behind { StandsBehind place behind.now.terms }
    ensures { Gives cause (λ p. p) result (Ok (with_column place number.now behind.now)) }
{
    let column = Poly::column(alloc, Col::At(place))?;
    let term = scale(alloc, &column, *number)?;
    add(alloc, behind, &term)
}

/// The numbers that a point has at the first so many entry columns, and 1 behind them.
fn with_one(
    alloc: Global,
    columns: &[Mono],
    point: &[Ratio],
    count: usize,
) -> Result<Items<Ratio>, AllocError>
    requires { count ≤ 6 }
    ensures { IfOk result (λ made. made ≡ values_to columns.now point.now count ++ whole (pos 1)
        ∷ []) }
{
    let mut made = entry_values(alloc, columns, point, count)?;
    made.push(Ratio::whole(1))?;
    Ok(made)
}

/// The numerators of a solution over its least common denominator. They are small, so want of
/// memory is the one error.
fn over_least(
    alloc: Global,
    lines: &[Items<i128>],
    values: &[Ratio],
) -> Result<Items<i128>, AllocError>
    requires lines { AreRegularLines lines.now }
    requires solution { IsSolution lines.now values.now }
    ensures { IfOk result (IsNullVector lines.now) }
{
    let _lines = lines;
    lowest_ratios(values);
    match least_numerators(alloc, values) {
        Ok(numbers) => Ok(numbers),
        Err(SearchStop::Memory) => Err(AllocError),
        Err(SearchStop::Wide(_step)) => unreachable!(),
    }
}

/// Goes over ratios. Afterwards it is known that they are in lowest terms.
fn lowest_ratios(values: &[Ratio])
    ensures { All IsLowest values.now }
{
    for value in values {
        let _den = value.den();
    }
}
