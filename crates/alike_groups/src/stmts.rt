ghost use Rattle.std.specs.Prelude.{◌≡◌};
ghost use Rattle.syntax_tree.specs.Code.{code_of, statement_of};
ghost use Rattle.alike_groups.specs.Groups.{test_of};
ghost use Rattle.alike_groups.specs.Tests.{is_alike_code, is_alike_statement};

use crate::callees::is_alike_callee;
use crate::group::KnownGroup;
use crate::terms::{are_same_terms, is_same_term};
use syntax_tree::Stmt;

/// Whether two statements are the same but for the numbers of assertions, and for the procedures
/// that are called, which are alike.
#[cycle(alike)]
#[tactic(auto, using(syntax_tree::proofs::Codes::statements, crate::proofs::Lists::mapped))]
fn is_alike_stmt(stmt: &Stmt, next: &Stmt, group: &KnownGroup<'_>, other: &KnownGroup<'_>) -> bool
    ensures { result
        ≡ is_alike_statement (test_of group.now other.now) (statement_of stmt.now)
        (statement_of next.now) }
{
    match (stmt, next) {
        (
            Stmt::Set { col, value },
            Stmt::Set {
                col: to,
                value: given,
            },
        ) => { col == to && is_same_term(value, given) }
        (Stmt::Any { col }, Stmt::Any { col: to }) => col == to,
        (
            Stmt::Call { proc, args, into },
            Stmt::Call {
                proc: callee,
                args: given,
                into: to,
            },
        ) => {
            is_alike_callee(*proc, *callee, group, other)
                && are_same_terms(args.as_slice(), given.as_slice())
                && into == to
        }
        (Stmt::Guard { cond }, Stmt::Guard { cond: given }) => is_same_term(cond, given),
        (Stmt::Check { cond, .. }, Stmt::Check { cond: given, .. }) => is_same_term(cond, given),
        (
            Stmt::If { cond, yes, no },
            Stmt::If {
                cond: given,
                yes: then,
                no: otherwise,
            },
        ) => {
            is_same_term(cond, given)
                && are_alike_stmts(yes.as_slice(), then.as_slice(), group, other)
                && are_alike_stmts(no.as_slice(), otherwise.as_slice(), group, other)
        }
        (
            Stmt::Loop {
                pre,
                cond,
                body,
                step,
                first,
            },
            Stmt::Loop {
                pre: begin,
                cond: given,
                body: turn,
                step: end,
                first: at,
            },
        ) => {
            are_alike_stmts(pre.as_slice(), begin.as_slice(), group, other)
                && is_same_term(cond, given)
                && are_alike_stmts(body.as_slice(), turn.as_slice(), group, other)
                && are_alike_stmts(step.as_slice(), end.as_slice(), group, other)
                && first == at
        }
        (Stmt::Break, Stmt::Break) => true,
        (Stmt::Continue, Stmt::Continue) => true,
        (Stmt::Return, Stmt::Return) => true,
        _ => false,
    }
}

/// The same of lists of statements.
#[cycle(alike)]
#[tactic(auto, using(crate::proofs::Lists::uneven))]
pub(crate) fn are_alike_stmts(
    stmts: &[Stmt],
    others: &[Stmt],
    group: &KnownGroup<'_>,
    other: &KnownGroup<'_>,
) -> bool
    ensures { result
        ≡ is_alike_code (test_of group.now other.now) (code_of stmts.now) (code_of others.now) }
{
    if stmts.len() != others.len() {
        return false;
    }
    for (place, stmt) in stmts.iter().enumerate() {
        if !is_alike_stmt(stmt, &others[place], group, other) {
            return false;
        }
    }
    true
}
