ghost use Rattle.std.specs.Prelude.{◌+◌, ◌<◌, ◌≤◌, IfOk, length};
ghost use Rattle.syntax_tree.specs.WellFormed.{IsProcFit, IsWellFormed};
ghost use Rattle.syntax_tree.specs.declared.program.Proc.{Proc as Procedure};
ghost use Rattle.vocabularies.specs.Ends.{entry_width};
ghost use Rattle.vocabularies.specs.Procs.{IsProcOf};
ghost use Rattle.leaf_cases.specs.Conditions.{exits_of};
ghost use Rattle.point_candidates.specs.Callers.{AreCallerRows};

use crate::ends::{behind, column, entry_columns, pair_columns, unread};
use crate::offering::rows_over;
use crate::reading::add_read;
use flow_graph::{Act, Graph};
use items::Items;
use linear_terms::{Poly, Row, TermError, difference};
use std::alloc::{AllocError, Global};
use syntax_tree::{Core, Proc, Program};

/// The text rows of a procedure's callers, as rows at its entry, and as rows over its columns at
/// the entry and behind them those at the exit.
#[derive(Drop)]
pub struct CallerRows {
    pub at_entry: Items<Row>,
    pub at_exit: Items<Row>,
}

/// The procedures of a program, and where calls are looked for.
#[derive(Clone, Copy)]
pub struct CallerTexts<'a> {
    pub program: &'a Program,
    /// The flow graph of each procedure.
    pub graphs: &'a [Graph],
    /// The rows of each procedure's text.
    pub texts: &'a [Items<Row>],
}

/// The columns of a procedure that is called.
#[derive(Clone, Copy)]
struct CalleeColumns {
    proc: u32,
    globals: u32,
    entry: u32,
    pair: u32,
}

/// How a column of the caller is read.
#[derive(Clone, Copy)]
enum CallReading {
    /// At the entry of the callee.
    AtEntry,
    /// At its exit, where a global is its number there.
    AtExit,
    /// At its exit, where a global is what was added to it.
    Added,
}

/// What a call does with columns of the caller.
#[derive(Clone, Copy)]
struct CallColumns<'a> {
    callee: CalleeColumns,
    /// For each column of the caller the parameter that it is passed as.
    passed: &'a [Option<u32>],
    into: Option<u32>,
}

/// The text rows of the callers of a procedure, read at each call of it in order. An argument that
/// is a column of the caller's own stands for the parameter, the first where there are several, and
/// the column that takes the result for the returned value. The one error is want of memory.
pub fn by_callers(alloc: Global, texts: CallerTexts, callee: u32) -> Result<CallerRows, AllocError>
    requires formed { IsWellFormed texts.program.now }
    requires there { callee < length texts.program.now.procs }
    ensures { (p : Procedure) → IsProcOf texts.entry.program.now callee p
        → IfOk result (AreCallerRows texts.entry.program.now p) }
{
    let program = texts.program;
    rows_by_callers(
        alloc,
        texts,
        callee,
        &program.procs.as_slice()[callee as usize],
    )
}

fn rows_by_callers(
    alloc: Global,
    texts: CallerTexts,
    proc: u32,
    p: &Proc,
) -> Result<CallerRows, AllocError>
    requires globals { length texts.program.now.globals ≤ 16 }
    requires fit { IsProcFit texts.program.now p.now }
    ensures { IfOk result (AreCallerRows texts.entry.program.now p.now) }
{
    let callee = callee_columns(texts.program, proc, p);
    let CallerRows { at_entry, at_exit } = rows_of_all_calls(alloc, texts, callee)?;
    let at_entry = rows_over(alloc, entry_columns(texts.program, p) as usize, at_entry)?;
    let at_exit = rows_over(alloc, pair_columns(texts.program, p) as usize, at_exit)?;
    Ok(CallerRows { at_entry, at_exit })
}

fn callee_columns(program: &Program, proc: u32, p: &Proc) -> CalleeColumns
    requires globals { length program.now.globals ≤ 16 }
    requires fit { IsProcFit program.now p.now }
{
    CalleeColumns {
        proc,
        globals: program.globals.len() as u32,
        entry: entry_columns(program, p),
        pair: pair_columns(program, p),
    }
}

fn rows_of_all_calls(
    alloc: Global,
    texts: CallerTexts,
    callee: CalleeColumns,
) -> Result<CallerRows, AllocError> {
    let mut rows = CallerRows {
        at_entry: Items::new(alloc),
        at_exit: Items::new(alloc),
    };
    for (place, graph) in texts.graphs.iter().enumerate() {
        add_of_graph(alloc, texts, callee, place, graph, &mut rows)?;
    }
    Ok(rows)
}

/// Adds the rows of the calls in one procedure.
fn add_of_graph(
    alloc: Global,
    texts: CallerTexts,
    callee: CalleeColumns,
    place: usize,
    graph: &Graph,
    rows: &mut CallerRows,
) -> Result<(), AllocError> {
    match (
        texts.texts.get(place),
        texts.program.procs.as_slice().get(place),
    ) {
        (Some(text), Some(p)) => {
            let own = p.columns.len();
            add_of_calls(alloc, callee, own, graph, text.as_slice(), rows)
        }
        _ => Ok(()),
    }
}

fn add_of_calls(
    alloc: Global,
    callee: CalleeColumns,
    own: usize,
    graph: &Graph,
    text: &[Row],
    rows: &mut CallerRows,
) -> Result<(), AllocError> {
    for edge in graph.edges.as_slice() {
        add_of_act(alloc, callee, own, &edge.act, text, rows)?;
    }
    Ok(())
}

fn add_of_act(
    alloc: Global,
    callee: CalleeColumns,
    own: usize,
    act: &Act,
    text: &[Row],
    rows: &mut CallerRows,
) -> Result<(), AllocError> {
    match act {
        Act::Guard(_) => Ok(()),
        Act::Set(_, _) => Ok(()),
        Act::Any(_) => Ok(()),
        Act::Call { proc, args, into } => {
            if *proc == callee.proc {
                add_of_call(alloc, callee, own, args.as_slice(), *into, text, rows)?;
            }
            Ok(())
        }
    }
}

/// Adds the rows of one call.
fn add_of_call(
    alloc: Global,
    callee: CalleeColumns,
    own: usize,
    args: &[Core],
    into: Option<u32>,
    text: &[Row],
    rows: &mut CallerRows,
) -> Result<(), AllocError> {
    let passed = passed_columns(alloc, callee, own, args)?;
    let call = CallColumns {
        callee,
        passed: &passed,
        into,
    };
    add_read_rows(alloc, call, text, rows)
}

/// For each column of the caller the parameter as which it is passed, globals left out.
fn passed_columns(
    alloc: Global,
    callee: CalleeColumns,
    own: usize,
    args: &[Core],
) -> Result<Vec<Option<u32>>, AllocError> {
    let mut passed = Vec::new(alloc);
    for _column in 0..(callee.globals as usize)
        .saturating_add(own)
        .saturating_add(1)
    {
        passed.push(None)?;
    }
    let mut parameter = callee.globals;
    for arg in args {
        note_passed(callee, arg, parameter, &mut passed);
        parameter = behind(parameter, 1);
    }
    Ok(passed)
}

fn note_passed(callee: CalleeColumns, arg: &Core, parameter: u32, passed: &mut [Option<u32>]) {
    match arg {
        Core::Lit(_) => {}
        Core::Unary(_, _) => {}
        Core::Binary(_, _, _) => {}
        Core::Col(col) => {
            if callee.globals <= *col {
                note_first(*col as usize, parameter, passed);
            }
        }
    }
}

fn note_first(col: usize, parameter: u32, passed: &mut [Option<u32>]) {
    if col < passed.len() && passed[col].is_none() {
        passed[col] = Some(parameter);
    }
}

fn add_read_rows(
    alloc: Global,
    call: CallColumns,
    text: &[Row],
    rows: &mut CallerRows,
) -> Result<(), AllocError> {
    let at_entry = columns_read(alloc, call, CallReading::AtEntry)?;
    let at_exit = columns_read(alloc, call, CallReading::AtExit)?;
    let added = columns_read(alloc, call, CallReading::Added)?;
    let entry = call.callee.entry as usize;
    let pair = call.callee.pair as usize;
    for row in text {
        add_read(alloc, entry, row, at_entry.as_slice(), &mut rows.at_entry)?;
        add_read(alloc, pair, row, at_exit.as_slice(), &mut rows.at_exit)?;
        add_read(alloc, pair, row, added.as_slice(), &mut rows.at_exit)?;
    }
    Ok(())
}

/// What stands for the columns of the caller.
fn columns_read(
    alloc: Global,
    call: CallColumns,
    reading: CallReading,
) -> Result<Items<Poly>, AllocError> {
    match polys_read(alloc, call, reading) {
        Ok(polys) => Ok(polys),
        Err(_memory) => Err(AllocError),
    }
}

fn polys_read(
    alloc: Global,
    call: CallColumns,
    reading: CallReading,
) -> Result<Items<Poly>, TermError> {
    let mut polys = Items::new(alloc);
    let mut number = 0;
    for parameter in call.passed {
        polys.push(column_read(alloc, call, reading, number, *parameter)?)?;
        number = behind(number, 1);
    }
    Ok(polys)
}

fn column_read(
    alloc: Global,
    call: CallColumns,
    reading: CallReading,
    number: u32,
    parameter: Option<u32>,
) -> Result<Poly, TermError> {
    if number < call.callee.globals {
        global_read(alloc, call.callee, reading, number)
    } else if takes_result(call.into, reading, number) {
        column(alloc, behind(call.callee.entry, call.callee.globals))
    } else {
        match parameter {
            Some(parameter) => column(alloc, parameter),
            None => unread(alloc, number),
        }
    }
}

/// Whether the column is read at the exit as the returned value.
fn takes_result(into: Option<u32>, reading: CallReading, number: u32) -> bool {
    match (into, reading) {
        (None, _) => false,
        (Some(_), CallReading::AtEntry) => false,
        (Some(into), CallReading::AtExit) => into == number,
        (Some(into), CallReading::Added) => into == number,
    }
}

/// What stands for a global.
fn global_read(
    alloc: Global,
    callee: CalleeColumns,
    reading: CallReading,
    number: u32,
) -> Result<Poly, TermError> {
    let before = column(alloc, number)?;
    let after = column(alloc, behind(callee.entry, number))?;
    match reading {
        CallReading::AtEntry => Ok(before),
        CallReading::AtExit => Ok(after),
        CallReading::Added => difference(alloc, &after, &before),
    }
}
