ghost use Rattle.std.specs.Prelude.{◌≡◌, ◌∷◌, [], ◌++◌, ◌<◌, ◌^◌, ◌==◌, if◌then◌else◌, length, slice_get, IfOk};
ghost use Rattle.std.specs.List.{list_any};
ghost use Rattle.point_rounds.specs.Parts.{numbers_at, rows_without, with_list};
ghost use Rattle.point_rounds.specs.Rounds.{exits_left, is_same_place, lists_left, points_left, rows_left, table_left};
ghost use Rattle.point_rounds.specs.Source.{IsRoundSource};
ghost use Rattle.point_rounds.specs.Table.{IsTable};

use crate::round::{FallenRow, RowPlace};
use crate::source::{RoundSource, heads_at};
use crate::table::PointTable;
use items::Items;
use linear_terms::Row;
use std::alloc::{AllocError, Global};

/// The table without the rows that fell. An error is want of memory.
pub fn table_left(
    alloc: Global,
    source: RoundSource,
    fallen: &[FallenRow],
    table: PointTable,
) -> Result<PointTable, AllocError>
    requires source { IsRoundSource source }
    requires table { IsTable source.program.now table }
    ensures exact { IfOk result
        (λ left. left ≡ table_left source.entry.program.now fallen.now table) }
    ensures shape { IfOk result (IsTable source.entry.program.now) }
{
    let PointTable { points, exits } = table;
    let points = points_left(alloc, source, fallen, points)?;
    let exits = exits_left(alloc, fallen, exits)?;
    Ok(PointTable { points, exits })
}

/// The rows at the points of all procedures.
fn points_left(
    alloc: Global,
    source: RoundSource,
    fallen: &[FallenRow],
    points: Items<Items<Items<Row>>>,
) -> Result<Items<Items<Items<Row>>>, AllocError>
    requires source { IsRoundSource source }
    requires few { length points < 2 ^ 32 }
    ensures { IfOk result
        (λ left. left ≡ points_left source.entry.program.now fallen.now 0 points) }
{
    let mut left = Items::new(alloc);
    let mut proc = 0;
    for lists in points {
        let heads = heads_at(source, proc);
        left.push(lists_left(alloc, fallen, proc, heads, lists)?)?;
        proc += 1;
    }
    Ok(left)
}

/// The rows at the points of a procedure with these heads.
fn lists_left(
    alloc: Global,
    fallen: &[FallenRow],
    proc: u32,
    heads: &[u32],
    lists: Items<Items<Row>>,
) -> Result<Items<Items<Row>>, AllocError>
    ensures { IfOk result (λ left. left ≡ lists_left fallen.now proc (0 ∷ heads.now) lists) }
{
    let mut left = Items::new(alloc);
    for rows in lists {
        left = with_list(alloc, fallen, proc, heads, left, rows)?;
    }
    Ok(left)
}

/// The lists of the first points, and behind them what is left of the next, if there is a point.
fn with_list(
    alloc: Global,
    fallen: &[FallenRow],
    proc: u32,
    heads: &[u32],
    left: Items<Items<Row>>,
    rows: Items<Row>,
) -> Result<Items<Items<Row>>, AllocError>
    ensures { IfOk result
        (λ more. more ≡ with_list fallen.now proc (0 ∷ heads.now) left rows) }
{
    match point_at(heads, left.len()) {
        Some(node) => {
            let mut more = left;
            more.push(rows_left(alloc, fallen, RowPlace::AtPoint { proc, node }, rows)?)?;
            Ok(more)
        }
        None => Ok(left),
    }
}

/// The node of the point at a place, of the entry and then these heads.
fn point_at(heads: &[u32], place: usize) -> Option<u32>
    ensures { result ≡ slice_get (0 ∷ heads.now) place }
{
    if place == 0 {
        return Some(0);
    }
    heads.get(place - 1).copied()
}

/// The rows at the exits of all procedures.
fn exits_left(
    alloc: Global,
    fallen: &[FallenRow],
    exits: Items<Items<Row>>,
) -> Result<Items<Items<Row>>, AllocError>
    requires { length exits < 2 ^ 32 }
    ensures { IfOk result (λ left. left ≡ exits_left fallen.now 0 exits) }
{
    let mut left = Items::new(alloc);
    let mut proc = 0;
    for rows in exits {
        left.push(rows_left(alloc, fallen, RowPlace::AtExit { proc }, rows)?)?;
        proc += 1;
    }
    Ok(left)
}

/// The rows of a place without those that fell.
fn rows_left(
    alloc: Global,
    fallen: &[FallenRow],
    place: RowPlace,
    rows: Items<Row>,
) -> Result<Items<Row>, AllocError>
    ensures { IfOk result (λ left. left ≡ rows_left fallen.now place 0 rows) }
{
    let numbers = numbers_at(alloc, fallen, place)?;
    rows_without(alloc, numbers.as_slice(), rows)
}

/// The numbers of the rows of a place among those that fell.
fn numbers_at(
    alloc: Global,
    fallen: &[FallenRow],
    place: RowPlace,
) -> Result<Items<usize>, AllocError>
    ensures { IfOk result (λ numbers. numbers ≡ numbers_at place fallen.now) }
{
    let mut numbers = Items::new(alloc);
    for row in fallen {
        numbers = with_number(numbers, place, *row)?;
    }
    Ok(numbers)
}

/// The numbers, and behind them that of a row, if it is one of the place.
fn with_number(
    numbers: Items<usize>,
    place: RowPlace,
    row: FallenRow,
) -> Result<Items<usize>, AllocError>
    ensures { IfOk result (λ all. all ≡ numbers ++ numbers_at place (row ∷ [])) }
{
    if !is_same_place(row.place, place) {
        return Ok(numbers);
    }
    let mut all = numbers;
    all.push(row.number)?;
    Ok(all)
}

fn is_same_place(one: RowPlace, other: RowPlace) -> bool
    ensures { result ≡ is_same_place one other }
{
    match (one, other) {
        (RowPlace::AtPoint { proc, node }, RowPlace::AtPoint { proc: p, node: n }) => {
            proc == p && node == n
        }
        (RowPlace::AtExit { proc }, RowPlace::AtExit { proc: p }) => proc == p,
        _ => false,
    }
}

/// The rows without those of these numbers, from 0.
fn rows_without(
    alloc: Global,
    numbers: &[usize],
    rows: Items<Row>,
) -> Result<Items<Row>, AllocError>
    ensures { IfOk result (λ left. left ≡ rows_without numbers.now 0 rows) }
{
    let mut left = Items::new(alloc);
    let mut number = 0;
    for row in rows {
        left = with_row_unless(left, row, is_among(number, numbers))?;
        number += 1;
    }
    Ok(left)
}

fn is_among(number: usize, numbers: &[usize]) -> bool
    ensures { result ≡ list_any (λ other. other == number) numbers.now }
{
    numbers.iter().any(|other| *other == number)
}

fn with_row_unless(left: Items<Row>, row: Row, fell: bool) -> Result<Items<Row>, AllocError>
    ensures { IfOk result (λ more. more ≡ (if fell then left else left ++ row ∷ [])) }
{
    if fell {
        return Ok(left);
    }
    let mut more = left;
    more.push(row)?;
    Ok(more)
}
