ghost use Rattle.std.specs.Prelude.{◌<◌, ◌≤◌, IfOk, length};
ghost use Rattle.syntax_tree.specs.WellFormed.{width_of, IsProcFit, IsWellFormed};
ghost use Rattle.syntax_tree.specs.declared.program.Proc.{Proc as Procedure};
ghost use Rattle.vocabularies.specs.Procs.{IsProcOf};
ghost use Rattle.point_rows.specs.Reading.{AreOverColumns};

use crate::ends::state_columns;
use crate::naming::{is_named, naming};
use crate::offering::{offer, rows_over};
use crate::sides::{column_less, difference_of, side};
use items::Items;
use linear_terms::{Kind, Poly, Row, TermError, add, scale};
use std::alloc::{AllocError, Global};
use syntax_tree::{Core, Op, Proc, Program, Sign, Stmt};

/// The rows of a procedure's text, over its named columns and the returned value. Of each
/// difference `d` of two sides they are `d = 0`, and then for 1, 0 and -1 as `n` in turn
/// `d + n <= 0` and `-d + n <= 0`. The one error is want of memory.
pub fn text_rows(alloc: Global, program: &Program, proc: u32) -> Result<Items<Row>, AllocError>
    requires formed { IsWellFormed program.now }
    requires there { proc < length program.now.procs }
    ensures { (p : Procedure) → IsProcOf program.now proc p
        → IfOk result (AreOverColumns (width_of program.now p)) }
{
    rows_of_text(alloc, program, &program.procs.as_slice()[proc as usize])
}

fn rows_of_text(alloc: Global, program: &Program, p: &Proc) -> Result<Items<Row>, AllocError>
    requires globals { length program.now.globals ≤ 16 }
    requires fit { IsProcFit program.now p.now }
    ensures { IfOk result (AreOverColumns (width_of program.now p.now)) }
{
    let named = naming(alloc, program, p)?;
    let mut rows = Items::new(alloc);
    add_of_code(alloc, p.body.as_slice(), &named, &mut rows)?;
    rows_over(alloc, state_columns(program, p) as usize, rows)
}

/// Adds the rows of statements, in order.
#[cycle(text)]
fn add_of_code(
    alloc: Global,
    stmts: &[Stmt],
    named: &[bool],
    rows: &mut Items<Row>,
) -> Result<(), AllocError> {
    for stmt in stmts {
        add_of_stmt(alloc, stmt, named, rows)?;
    }
    Ok(())
}

#[cycle(text)]
fn add_of_stmt(
    alloc: Global,
    stmt: &Stmt,
    named: &[bool],
    rows: &mut Items<Row>,
) -> Result<(), AllocError> {
    match stmt {
        Stmt::Set { col, value } => add_of_assignment(alloc, *col, value, named, rows),
        Stmt::Call { args, .. } => add_of_each(alloc, args.as_slice(), named, rows),
        Stmt::Guard { cond } => add_of_expression(alloc, cond, true, named, rows),
        Stmt::Check { cond, .. } => add_of_expression(alloc, cond, true, named, rows),
        Stmt::If { cond, yes, no } => {
            add_of_expression(alloc, cond, true, named, rows)?;
            add_of_code(alloc, yes.as_slice(), named, rows)?;
            add_of_code(alloc, no.as_slice(), named, rows)
        }
        Stmt::Loop {
            pre,
            cond,
            body,
            step,
            ..
        } => {
            add_of_code(alloc, pre.as_slice(), named, rows)?;
            add_of_expression(alloc, cond, true, named, rows)?;
            add_of_code(alloc, body.as_slice(), named, rows)?;
            add_of_code(alloc, step.as_slice(), named, rows)
        }
        Stmt::Any { .. } => Ok(()),
        Stmt::Break => Ok(()),
        Stmt::Continue => Ok(()),
        Stmt::Return => Ok(()),
    }
}

fn add_of_assignment(
    alloc: Global,
    col: u32,
    value: &Core,
    named: &[bool],
    rows: &mut Items<Row>,
) -> Result<(), AllocError> {
    add_of_expression(alloc, value, false, named, rows)?;
    if is_number(value) {
        let made = column_less(alloc, col, value);
        add_of_difference(alloc, made, named, rows)?;
    }
    Ok(())
}

/// Whether the expression is a number, with or without a sign.
fn is_number(e: &Core) -> bool {
    match e {
        Core::Lit(_) => true,
        Core::Unary(_, inner) => is_literal(inner),
        Core::Col(_) => false,
        Core::Binary(_, _, _) => false,
    }
}

fn is_literal(e: &Core) -> bool {
    matches!(e, Core::Lit(_))
}

fn add_of_each(
    alloc: Global,
    exprs: &[Core],
    named: &[bool],
    rows: &mut Items<Row>,
) -> Result<(), AllocError> {
    for e in exprs {
        add_of_expression(alloc, e, false, named, rows)?;
    }
    Ok(())
}

/// Adds the rows of an expression, which is read as a truth value or as a number: its own, and then
/// those of its operands.
fn add_of_expression(
    alloc: Global,
    e: &Core,
    truth: bool,
    named: &[bool],
    rows: &mut Items<Row>,
) -> Result<(), AllocError> {
    add_own(alloc, e, truth, named, rows)?;
    match e {
        Core::Lit(_) => Ok(()),
        Core::Col(_) => Ok(()),
        Core::Unary(sign, inner) => add_of_expression(alloc, inner, is_not(*sign), named, rows),
        Core::Binary(op, left, right) => {
            add_of_expression(alloc, left, joins_truths(*op), named, rows)?;
            add_of_expression(alloc, right, joins_truths(*op), named, rows)
        }
    }
}

/// Adds the rows of a comparison, or of another expression that is read as a truth value in itself.
fn add_own(
    alloc: Global,
    e: &Core,
    truth: bool,
    named: &[bool],
    rows: &mut Items<Row>,
) -> Result<(), AllocError> {
    match e {
        Core::Lit(_) => add_of_number(alloc, e, truth, named, rows),
        Core::Col(_) => add_of_number(alloc, e, truth, named, rows),
        Core::Unary(sign, _) => { add_of_number(alloc, e, truth && !is_not(*sign), named, rows) }
        Core::Binary(op, left, right) => {
            if is_comparison(*op) {
                let made = difference_of(alloc, left, right);
                add_of_difference(alloc, made, named, rows)
            } else {
                add_of_number(alloc, e, truth && !joins_truths(*op), named, rows)
            }
        }
    }
}

/// Adds the rows of the comparison of an expression with 0, if it is read as a truth value.
fn add_of_number(
    alloc: Global,
    e: &Core,
    truth: bool,
    named: &[bool],
    rows: &mut Items<Row>,
) -> Result<(), AllocError> {
    if truth {
        let made = side(alloc, e);
        add_of_difference(alloc, made, named, rows)?;
    }
    Ok(())
}

fn is_not(sign: Sign) -> bool {
    matches!(sign, Sign::Not)
}

fn joins_truths(op: Op) -> bool {
    matches!(op, Op::And | Op::Or)
}

fn is_comparison(op: Op) -> bool {
    matches!(op, Op::Lt | Op::Le | Op::Gt | Op::Ge | Op::Eq | Op::Ne)
}

/// Adds the rows of a difference of two sides, if it is a polynomial over named columns.
fn add_of_difference(
    alloc: Global,
    made: Result<Poly, TermError>,
    named: &[bool],
    rows: &mut Items<Row>,
) -> Result<(), AllocError> {
    match made {
        Ok(d) if is_named(named, &d) => add_around(alloc, &d, rows),
        Ok(_unnamed) => Ok(()),
        Err(TermError::Memory) => Err(AllocError),
        Err(_lost) => Ok(()),
    }
}

/// Adds `d = 0`, and the inequalities around it.
fn add_around(alloc: Global, d: &Poly, rows: &mut Items<Row>) -> Result<(), AllocError> {
    offer(alloc, rows, copy_of(d), Kind::Equal)?;
    for n in [1, 0, -1] {
        offer(
            alloc,
            rows,
            add(alloc, d, &Poly::constant(alloc, n)),
            Kind::AtMost,
        )?;
        offer(alloc, rows, negative_plus(alloc, d, n), Kind::AtMost)?;
    }
    Ok(())
}

fn copy_of(d: &Poly) -> Result<Poly, TermError> {
    Ok(d.clone()?)
}

/// The negative of a polynomial, with a number added.
fn negative_plus(alloc: Global, d: &Poly, n: i128) -> Result<Poly, TermError> {
    let turned = scale(alloc, d, -1)?;
    add(alloc, &turned, &Poly::constant(alloc, n))
}
