ghost use Rattle.std.specs.Prelude.{◌≡◌, ◌≤◌, ◌++◌, [], length, map, unwrap_or, IfOk, OnOk};
ghost use Rattle.syntax_tree.specs.WellFormed.{IsWellFormed};
ghost use Rattle.point_reports.specs.Parts.{AreHeadsOf, IsToldProc};
ghost use Rattle.point_reports.specs.Blocks.{name_of, names_after, names_at, names_before, rows_at_loops, rows_of_proc, rows_of_table, rows_told};

use crate::numbers::next_number;
use analysis::global_names;
use items::Items;
use linear_terms::Row;
use point_rounds::{PointTable, rows_at, rows_at_exit};
use report::{PointRows, RowsAt};
use std::alloc::{AllocError, Global};
use syntax_tree::{Column, Name, Proc, Program};

/// A procedure of a program, with its number and the heads of its loops.
#[derive(Clone, Copy)]
struct ToldProc<'a> {
    program: &'a Program,
    number: u32,
    proc: &'a Proc,
    heads: &'a [u32],
}

/// The rows of a table as they are told, procedure by procedure. The one error is want of memory.
pub(crate) fn rows_of_table(
    alloc: Global,
    program: &Program,
    heads: &[Items<u32>],
    table: &PointTable,
) -> Result<Items<PointRows>, AllocError>
    requires formed { IsWellFormed program.now }
    requires heads { AreHeadsOf program.now heads.now }
    ensures { IfOk result (λ told. told ≡ rows_of_table program.now table.now) }
{
    let mut told = Items::new(alloc);
    let procs = program.procs.as_slice();
    for (place, proc) in procs.iter().enumerate() {
        let at = ToldProc {
            program,
            number: place as u32,
            proc,
            heads: heads[place].as_slice(),
        };
        add_proc(alloc, at, table, &mut told)?;
    }
    Ok(told)
}

/// Adds the rows of a procedure.
fn add_proc(
    alloc: Global,
    at: ToldProc,
    table: &PointTable,
    told: &mut Items<PointRows>,
) -> Result<(), AllocError>
    requires { IsToldProc at }
    ensures { OnOk result (told.new ≡ told.old
        ++ rows_of_proc at.entry.program.now table.now at.entry.number at.entry.proc.now) }
{
    let entry = rows_at(at.heads, table, at.number, 0);
    add_rows(alloc, at, RowsAt::Entry, entry, told)?;
    add_loops(alloc, at, table, told)?;
    let exit = rows_at_exit(table, at.number);
    add_rows(alloc, at, RowsAt::Return, exit, told)
}

/// Adds the rows at the heads of its loops.
fn add_loops(
    alloc: Global,
    at: ToldProc,
    table: &PointTable,
    told: &mut Items<PointRows>,
) -> Result<(), AllocError>
    requires { IsToldProc at }
    ensures { OnOk result (told.new ≡ told.old
        ++ rows_at_loops at.entry.program.now table.now at.entry.number at.entry.proc.now 1
        at.entry.heads.now) }
{
    let mut number = 1;
    for head in at.heads {
        let rows = rows_at(at.heads, table, at.number, *head);
        add_rows(alloc, at, RowsAt::Loop(number), rows, told)?;
        number = next_number(number)?;
    }
    Ok(())
}

/// Adds the rows at a place, if there are some.
fn add_rows(
    alloc: Global,
    at: ToldProc,
    place: RowsAt,
    rows: &[Row],
    told: &mut Items<PointRows>,
) -> Result<(), AllocError>
    requires { IsToldProc at }
    ensures { OnOk result (told.new ≡ told.old
        ++ rows_told at.entry.program.now at.entry.number at.entry.proc.now place rows.now) }
{
    if rows.is_empty() {
        return Ok(());
    }
    let one = told_rows(alloc, at, place, rows)?;
    told.push(one)?;
    Ok(())
}

/// The rows at a place as they are told.
fn told_rows(
    alloc: Global,
    at: ToldProc,
    place: RowsAt,
    rows: &[Row],
) -> Result<PointRows, AllocError>
    requires { IsToldProc at }
    ensures { IfOk result
        (λ told. told ≡ record {
          proc = at.entry.number;
          name = at.entry.proc.now.name;
          at = place;
          columns = names_at at.entry.program.now at.entry.proc.now place;
          after = names_after at.entry.program.now place;
          rows = rows.now;
        }) }
{
    let name = at.proc.name.clone()?;
    let columns = names_at(alloc, at, place)?;
    let after = names_after(alloc, at.program, place)?;
    let rows = copies_of(alloc, rows)?;
    Ok(PointRows {
        proc: at.number,
        name,
        at: place,
        columns,
        after,
        rows,
    })
}

fn copies_of(alloc: Global, rows: &[Row]) -> Result<Items<Row>, AllocError>
    ensures { IfOk result (λ copies. copies ≡ rows.now) }
{
    let mut copies = Items::new(alloc);
    for row in rows {
        copies.push(row.clone()?)?;
    }
    Ok(copies)
}

/// The names of the first columns of rows at a place.
fn names_at(alloc: Global, at: ToldProc, place: RowsAt) -> Result<Items<Name>, AllocError>
    requires { IsToldProc at }
    ensures { IfOk result
        (λ names. names ≡ names_at at.entry.program.now at.entry.proc.now place) }
{
    let columns = at.proc.columns.as_slice();
    match place {
        RowsAt::Entry | RowsAt::Loop(_) => names_before(alloc, at.program, columns),
        RowsAt::Return => names_before(alloc, at.program, &columns[..at.proc.params as usize]),
    }
}

/// The names of the globals, and behind them those of columns.
fn names_before(
    alloc: Global,
    program: &Program,
    columns: &[Column],
) -> Result<Items<Name>, AllocError>
    ensures { IfOk result (λ names. names ≡ names_before program.now columns.now) }
{
    let mut names = global_names(alloc, program)?;
    for column in columns {
        names.push(name_of(alloc, column)?)?;
    }
    Ok(names)
}

/// The name of a column; the empty one where it has none.
fn name_of(alloc: Global, column: &Column) -> Result<Name, AllocError>
    ensures { IfOk result (λ name. name ≡ name_of column.now) }
{
    match &column.name {
        Some(name) => name.clone(),
        None => Ok(no_name(alloc)),
    }
}

fn no_name(alloc: Global) -> Name
    ensures { result ≡ [] }
{
    match Name::new(Items::new(alloc)) {
        Some(name) => name,
        None => unreachable!(),
    }
}

/// The names of the globals where rows are on a return, else none.
fn names_after(alloc: Global, program: &Program, place: RowsAt) -> Result<Items<Name>, AllocError>
    ensures { IfOk result (λ names. names ≡ names_after program.now place) }
{
    match place {
        RowsAt::Entry | RowsAt::Loop(_) => Ok(Items::new(alloc)),
        RowsAt::Return => global_names(alloc, program),
    }
}
