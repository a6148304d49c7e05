#![tactic(auto, using(syntax_tree::proofs::SourceExprs::source_exprs, syntax_tree::proofs::SourceLines::source_lines, crate::proofs::Nameless::columns))]

ghost use Rattle.std.specs.Prelude.{◌≡◌, [], ◌∷◌, ◌++◌, IfOk, OnOk, map};
ghost use Rattle.std.specs.Option.{option_map};
ghost use Rattle.syntax_tree.specs.SourceExpr.{source_expr_of, source_exprs_of};
ghost use Rattle.syntax_tree.specs.SourceLine.{source_line_of, source_lines_of};
ghost use Rattle.typing.specs.Calls.{put_temporaries};
ghost use Rattle.typing.specs.Lines.{all_columns_of, columns_of, named_column, nameless, value_columns};
ghost use Rattle.typing.specs.Terms.{all_temporaries, temporaries};
ghost use Rattle.typing.specs.Texts.{body_columns, param_column};

use items::Items;
use std::alloc::{AllocError, Global};
use syntax_tree::{Column, Expr, Line, Name, Param};

/// The columns of a procedure behind the globals: its parameters, then its locals and temporaries.
pub(crate) fn body_columns(
    alloc: Global,
    params: &[Param],
    lines: &[Line],
) -> Result<Items<Column>, AllocError>
    ensures { IfOk result (λ columns. columns ≡ body_columns params.now lines.now) }
{
    let mut columns = Items::new(alloc);
    for param in params {
        push_name(&param.name, &mut columns)?;
    }
    all_columns(lines, &mut columns)?;
    Ok(columns)
}

fn push_name(name: &Name, columns: &mut Items<Column>) -> Result<(), AllocError>
    ensures { OnOk result (columns.new ≡ columns.old ++ named_column name.now ∷ []) }
{
    let name = Some(name.clone()?);
    columns.push(Column { name })?;
    Ok(())
}

// A call in an expression takes a column without a name.
#[cycle(temporaries)]
fn temporaries(e: &Expr, columns: &mut Items<Column>) -> Result<(), AllocError>
    ensures { OnOk result
        (columns.new ≡ columns.old ++ nameless (temporaries (source_expr_of e.now))) }
{
    match e {
        Expr::Lit(_, _) => Ok(()),
        Expr::Var(_, _) => Ok(()),
        Expr::Call(_, _, args) => {
            all_temporaries(args.as_slice(), columns)?;
            columns.push(Column { name: None })?;
            Ok(())
        }
        Expr::Unary(_, _, inner) => temporaries(inner, columns),
        Expr::Binary(_, _, left, right) => {
            temporaries(left, columns)?;
            temporaries(right, columns)
        }
    }
}

#[cycle(temporaries)]
fn all_temporaries(exprs: &[Expr], columns: &mut Items<Column>) -> Result<(), AllocError>
    ensures { OnOk result
        (columns.new ≡ columns.old ++ nameless (all_temporaries (source_exprs_of exprs.now))) }
{
    for e in exprs {
        temporaries(e, columns)?;
    }
    Ok(())
}

// A call that is a whole right side, or a statement, takes none itself.
fn put_temporaries(e: &Expr, columns: &mut Items<Column>) -> Result<(), AllocError>
    ensures { OnOk result
        (columns.new ≡ columns.old ++ nameless (put_temporaries (source_expr_of e.now))) }
{
    match e {
        Expr::Call(_, _, args) => all_temporaries(args.as_slice(), columns),
        Expr::Lit(_, _) => temporaries(e, columns),
        Expr::Var(_, _) => temporaries(e, columns),
        Expr::Unary(_, _, _) => temporaries(e, columns),
        Expr::Binary(_, _, _, _) => temporaries(e, columns),
    }
}

fn value_columns(value: &Option<Expr>, columns: &mut Items<Column>) -> Result<(), AllocError>
    ensures { OnOk result
        (columns.new ≡ columns.old ++ value_columns (option_map source_expr_of value.now)) }
{
    match value {
        Some(value) => put_temporaries(value, columns),
        None => Ok(()),
    }
}

#[cycle(columns)]
fn all_columns(lines: &[Line], columns: &mut Items<Column>) -> Result<(), AllocError>
    ensures { OnOk result
        (columns.new ≡ columns.old ++ all_columns_of (source_lines_of lines.now)) }
{
    for line in lines {
        line_columns(line, columns)?;
    }
    Ok(())
}

#[cycle(columns)]
fn line_columns(line: &Line, columns: &mut Items<Column>) -> Result<(), AllocError>
    ensures { OnOk result (columns.new ≡ columns.old ++ columns_of (source_line_of line.now)) }
{
    match line {
        Line::Block(lines) => all_columns(lines.as_slice(), columns),
        Line::Local { name, init, .. } => {
            push_name(name, columns)?;
            value_columns(init, columns)
        }
        Line::Assign { value, .. } => put_temporaries(value, columns),
        Line::Act(call) => put_temporaries(call, columns),
        Line::If { cond, yes, no } => {
            temporaries(cond, columns)?;
            all_columns(yes.as_slice(), columns)?;
            all_columns(no.as_slice(), columns)
        }
        Line::Loop {
            init,
            cond,
            step,
            body,
            first,
        } => {
            all_columns(init.as_slice(), columns)?;
            if *first {
                all_columns(body.as_slice(), columns)?;
                temporaries(cond, columns)?;
                all_columns(step.as_slice(), columns)
            } else {
                temporaries(cond, columns)?;
                all_columns(step.as_slice(), columns)?;
                all_columns(body.as_slice(), columns)
            }
        }
        Line::Break(_) => Ok(()),
        Line::Continue(_) => Ok(()),
        Line::Return { value, .. } => value_columns(value, columns),
    }
}
