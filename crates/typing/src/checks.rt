#![tactic(auto, using(syntax_tree::proofs::SourceExprs::source_exprs, syntax_tree::proofs::SourceLines::source_lines, crate::proofs::Nameless::columns))]

ghost use Rattle.std.specs.Prelude.{◌≡◌, ◌++◌, OnOk};
ghost use Rattle.syntax_tree.specs.SourceExpr.{source_expr_of};
ghost use Rattle.syntax_tree.specs.SourceLine.{source_line_of, source_lines_of};
ghost use Rattle.typing.specs.Calls.{act_checks, if_assertion, listed_if};
ghost use Rattle.typing.specs.Lines.{all_checks_of, checks_of};
ghost use Rattle.typing.specs.Specials.{special_of};

use crate::special::special_of;
use items::Items;
use std::alloc::AllocError;
use syntax_tree::{Expr, Line};

/// Adds the places of the assertions of lines.
#[cycle(checks)]
pub(crate) fn all_checks(lines: &[Line], checks: &mut Items<u32>) -> Result<(), AllocError>
    ensures { OnOk result (checks.new ≡ checks.old ++ all_checks_of (source_lines_of lines.now)) }
{
    for line in lines {
        line_checks(line, checks)?;
    }
    Ok(())
}

#[cycle(checks)]
fn line_checks(line: &Line, checks: &mut Items<u32>) -> Result<(), AllocError>
    ensures { OnOk result (checks.new ≡ checks.old ++ checks_of (source_line_of line.now)) }
{
    match line {
        Line::Block(lines) => all_checks(lines.as_slice(), checks),
        Line::Local { .. } => Ok(()),
        Line::Assign { .. } => Ok(()),
        Line::Act(call) => act_checks(call, checks),
        Line::If { yes, no, .. } => {
            all_checks(yes.as_slice(), checks)?;
            all_checks(no.as_slice(), checks)
        }
        Line::Loop {
            init,
            step,
            body,
            first,
            ..
        } => {
            all_checks(init.as_slice(), checks)?;
            if *first {
                all_checks(body.as_slice(), checks)?;
                all_checks(step.as_slice(), checks)
            } else {
                all_checks(step.as_slice(), checks)?;
                all_checks(body.as_slice(), checks)
            }
        }
        Line::Break(_) => Ok(()),
        Line::Continue(_) => Ok(()),
        Line::Return { .. } => Ok(()),
    }
}

fn act_checks(call: &Expr, checks: &mut Items<u32>) -> Result<(), AllocError>
    ensures { OnOk result (checks.new ≡ checks.old ++ act_checks (source_expr_of call.now)) }
{
    match call {
        Expr::Call(at, name, _) => {
            if is_assertion(name.as_slice()) {
                checks.push(*at)?;
            }
            Ok(())
        }
        Expr::Lit(_, _) => Ok(()),
        Expr::Var(_, _) => Ok(()),
        Expr::Unary(_, _, _) => Ok(()),
        Expr::Binary(_, _, _, _) => Ok(()),
    }
}

fn is_assertion(name: &[u8]) -> bool
    ensures { result ≡ if_assertion (special_of name.now) }
{
    match special_of(name) {
        Some(special) => special.is_assertion(),
        None => false,
    }
}
