ghost use Rattle.std.specs.Prelude.{◌+◌, ◌<◌, ◌≤◌, IfOk, length};
ghost use Rattle.syntax_tree.specs.WellFormed.{IsProcFit, IsWellFormed};
ghost use Rattle.syntax_tree.specs.declared.program.Proc.{Proc as Procedure};
ghost use Rattle.vocabularies.specs.Ends.{entry_width};
ghost use Rattle.vocabularies.specs.Procs.{IsProcOf};
ghost use Rattle.leaf_cases.specs.Conditions.{exits_of};
ghost use Rattle.point_rows.specs.Reading.{AreOverColumns};

use crate::ends::{behind, column, entry_columns, pair_columns, state_columns, unread};
use crate::offering::rows_over;
use crate::reading::add_read;
use crate::shared::add_copy;
use items::Items;
use linear_terms::{Poly, Row, TermError};
use std::alloc::{AllocError, Global};
use syntax_tree::{Proc, Program};

/// What the rows at the exit of a procedure are made of.
#[derive(Clone, Copy)]
pub struct ExitTexts<'a> {
    /// The rows of the procedure's text.
    pub own: &'a [Row],
    /// The rows over globals that are tried everywhere.
    pub shared: &'a [Row],
    /// The rows of its callers at its exit.
    pub callers: &'a [Row],
}

/// The columns of a procedure and where they are read at its exit.
#[derive(Clone, Copy)]
struct ExitColumns {
    globals: u32,
    entry: u32,
    states: u32,
    returns: bool,
    /// Whether parameters are read, as they were at the entry.
    old: bool,
}

/// The rows that are tried at a procedure's exit, over its columns at the entry and behind them
/// those at the exit: its text rows and those over globals, read at the exit; its text rows with
/// the parameters as they were at the entry; then its callers'. Each has a column of the exit. The
/// one error is want of memory.
pub fn exit_rows(
    alloc: Global,
    program: &Program,
    proc: u32,
    texts: ExitTexts,
) -> Result<Items<Row>, AllocError>
    requires formed { IsWellFormed program.now }
    requires there { proc < length program.now.procs }
    ensures { (p : Procedure) → IsProcOf program.now proc p
        → IfOk result (AreOverColumns (entry_width program.now p + exits_of program.now p)) }
{
    exit_rows_of(
        alloc,
        program,
        &program.procs.as_slice()[proc as usize],
        texts,
    )
}

fn exit_rows_of(
    alloc: Global,
    program: &Program,
    p: &Proc,
    texts: ExitTexts,
) -> Result<Items<Row>, AllocError>
    requires globals { length program.now.globals ≤ 16 }
    requires fit { IsProcFit program.now p.now }
    ensures { IfOk result
        (AreOverColumns (entry_width program.now p.now + exits_of program.now p.now)) }
{
    let columns = pair_columns(program, p) as usize;
    let made = all_exit_rows(alloc, exit_columns(program, p), columns, texts)?;
    rows_over(alloc, columns, made)
}

fn exit_columns(program: &Program, p: &Proc) -> ExitColumns
    requires globals { length program.now.globals ≤ 16 }
    requires fit { IsProcFit program.now p.now }
{
    ExitColumns {
        globals: program.globals.len() as u32,
        entry: entry_columns(program, p),
        states: state_columns(program, p),
        returns: p.returns,
        old: false,
    }
}

fn all_exit_rows(
    alloc: Global,
    at: ExitColumns,
    columns: usize,
    texts: ExitTexts,
) -> Result<Items<Row>, AllocError> {
    let mut made = Items::new(alloc);
    add_at_exit(alloc, at, columns, texts.own, &mut made)?;
    add_at_exit(alloc, at, columns, texts.shared, &mut made)?;
    add_at_exit(alloc, with_entry(at), columns, texts.own, &mut made)?;
    for row in texts.callers {
        add_copy(row, &mut made)?;
    }
    with_exit_columns(alloc, at.entry, made)
}

fn with_entry(at: ExitColumns) -> ExitColumns {
    ExitColumns {
        globals: at.globals,
        entry: at.entry,
        states: at.states,
        returns: at.returns,
        old: true,
    }
}

/// Adds the rows, read at the exit.
fn add_at_exit(
    alloc: Global,
    at: ExitColumns,
    columns: usize,
    text: &[Row],
    made: &mut Items<Row>,
) -> Result<(), AllocError> {
    let polys = read_columns(alloc, at);
    match polys {
        Ok(polys) => add_each(alloc, columns, text, polys.as_slice(), made),
        Err(_memory) => Err(AllocError),
    }
}

fn add_each(
    alloc: Global,
    columns: usize,
    text: &[Row],
    polys: &[Poly],
    made: &mut Items<Row>,
) -> Result<(), AllocError> {
    for row in text {
        add_read(alloc, columns, row, polys, made)?;
    }
    Ok(())
}

/// What stands for the columns of the procedure's states.
fn read_columns(alloc: Global, at: ExitColumns) -> Result<Items<Poly>, TermError> {
    let mut polys = Items::new(alloc);
    for number in 0..at.states {
        polys.push(read_column(alloc, at, number)?)?;
    }
    Ok(polys)
}

fn read_column(alloc: Global, at: ExitColumns, number: u32) -> Result<Poly, TermError> {
    if number < at.globals {
        column(alloc, behind(at.entry, number))
    } else if at.returns && behind(number, 1) == at.states {
        column(alloc, behind(at.entry, at.globals))
    } else if at.old && number < at.entry {
        column(alloc, number)
    } else {
        unread(alloc, number)
    }
}

/// Those of the rows that have a column of the exit.
fn with_exit_columns(
    alloc: Global,
    entry: u32,
    rows: Items<Row>,
) -> Result<Items<Row>, AllocError> {
    let mut kept = Items::new(alloc);
    for row in rows {
        if !row.poly.is_covered(entry as usize, 0) {
            kept.push(row)?;
        }
    }
    Ok(kept)
}
