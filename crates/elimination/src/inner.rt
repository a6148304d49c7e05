ghost use Rattle.std.specs.Prelude.{◌≡◌, ◌++◌, [], ◌∷◌, ⊤, None, IfOk, MatchOption};
ghost use Rattle.std.specs.List.{list_all};
ghost use Rattle.linear_terms.specs.Row.{is_within};
ghost use Rattle.farkas_check.specs.Frames.{line_of};
ghost use Rattle.elimination.specs.Descents.{HasColumns, is_open, is_at_most, row_lines, over_line, deep_lines};
ghost use Rattle.elimination.specs.Narrow.{IsSmallCase};
ghost use Rattle.elimination.specs.Probes.{IsInner};
ghost use Rattle.elimination.specs.Rooms.{HasSmallRoom};

use crate::descents::descent;
use farkas_check::canonical_rows;
use items::Items;
use linear_terms::{Kind, Mono, Poly, Row};
use std::alloc::{AllocError, Global};

/// A point over one denominator: a numerator for each column.
#[derive(Drop)]
pub(crate) struct Inner {
    pub(crate) over: i128,
    pub(crate) numbers: Items<i128>,
}

/// A point over a small denominator that leaves room in each row, where the rows have room in each
/// direction.
pub(crate) fn inner_point(
    alloc: Global,
    columns: &[Mono],
    rows: &[Row],
) -> Result<Option<Inner>, AllocError>
    requires small { IsSmallCase 4 rows.now [] }
    requires columns { HasColumns columns.now rows.now }
    ensures point { IfOk result (λ found. MatchOption found ⊤ (IsInner columns.now rows.now)) }
    ensures none { IfOk result (λ found. found ≡ None → HasSmallRoom rows.now → ⊥) }
{
    canonical_rows(rows);
    if !are_open(rows) {
        return Ok(None);
    }
    let lines = deep_lines(alloc, columns, rows)?;
    match descent(alloc, columns.len() + 1, lines.as_slice())? {
        Some(numbers) => Ok(Some(inner_of(numbers))),
        None => Ok(None),
    }
}

/// The last number is the denominator of those before it.
fn inner_of(numbers: Items<i128>) -> Inner
    requires { numbers ≡ [] → ⊥ }
    ensures { result.numbers ++ result.over ∷ [] ≡ numbers }
{
    let mut numbers = numbers;
    match numbers.pop() {
        Some(over) => Inner { over, numbers },
        None => unreachable!(),
    }
}

// ---- rows

/// Whether each row is true without columns, or is an inequality.
fn are_open(rows: &[Row]) -> bool
    ensures { result ≡ list_all is_open rows.now }
{
    rows.iter().all(is_open)
}

fn is_open(row: &Row) -> bool
    ensures { result ≡ is_open row.now }
{
    match row.poly.terms() {
        [] => is_true(row.kind, row.poly.rest()),
        [_, ..] => is_at_most(row.kind),
    }
}

fn is_true(kind: Kind, rest: i128) -> bool
    ensures { result ≡ is_within kind rest }
{
    match kind {
        Kind::AtMost => rest <= 0,
        Kind::Equal => rest == 0,
    }
}

fn is_at_most(kind: Kind) -> bool
    ensures { result ≡ is_at_most kind }
{
    match kind {
        Kind::AtMost => true,
        Kind::Equal => false,
    }
}

// ---- lines

/// The lines of the rows that have columns, and last that of the denominator.
fn deep_lines(
    alloc: Global,
    columns: &[Mono],
    rows: &[Row],
) -> Result<Items<Items<i128>>, AllocError>
    ensures { IfOk result (λ made. made ≡ deep_lines columns.now rows.now) }
{
    let mut made = Items::new(alloc);
    for row in rows {
        made = with_line(alloc, made, columns, row)?;
    }
    made.push(over_line(alloc, columns)?)?;
    Ok(made)
}

fn with_line(
    alloc: Global,
    made: Items<Items<i128>>,
    columns: &[Mono],
    row: &Row,
) -> Result<Items<Items<i128>>, AllocError>
    ensures { IfOk result (λ next. next ≡ made ++ row_lines columns.now row.now) }
{
    match row.poly.terms() {
        [] => Ok(made),
        [_, ..] => with_poly(alloc, made, columns, &row.poly),
    }
}

fn with_poly(
    alloc: Global,
    made: Items<Items<i128>>,
    columns: &[Mono],
    poly: &Poly,
) -> Result<Items<Items<i128>>, AllocError>
    ensures { IfOk result (λ next. next ≡ made ++ line_of columns.now poly.now ∷ []) }
{
    let mut made = made;
    made.push(line_of(alloc, columns, poly)?)?;
    Ok(made)
}

/// The numbers of a polynomial at columns, and its constant.
fn line_of(alloc: Global, columns: &[Mono], poly: &Poly) -> Result<Items<i128>, AllocError>
    ensures { IfOk result (λ made. made ≡ line_of columns.now poly.now) }
{
    let mut made = Items::new(alloc);
    for column in columns {
        made.push(poly.coefficient(column))?;
    }
    made.push(poly.rest())?;
    Ok(made)
}

/// The line that says that the denominator is positive.
fn over_line(alloc: Global, columns: &[Mono]) -> Result<Items<i128>, AllocError>
    ensures { IfOk result (λ made. made ≡ over_line columns.now) }
{
    let mut made = Items::new(alloc);
    for _column in columns {
        made.push(0)?;
    }
    made.push(-1)?;
    Ok(made)
}
