ghost use Rattle.std.specs.Prelude.{◌≡◌, ◌+◌, min};
ghost use Rattle.syntax_tree.specs.Code.{code_of, statement_of};
ghost use Rattle.syntax_tree.specs.Nodes.{code_nodes, graph_nodes, statement_nodes};
ghost use Rattle.syntax_tree.specs.Limits.{most_nodes};

use crate::limits::MOST_NODES;
use crate::stmt::Stmt;

const CAP: usize = MOST_NODES + 1;

/// The nodes of the flow graph of a procedure with this body. A number past `MOST_NODES` counts as
/// one more than that.
pub fn count_nodes(body: &[Stmt]) -> usize
    ensures { result ≡ min (graph_nodes (code_of body.now)) (most_nodes + 1) }
{
    (2 + nodes_of(body)).min(CAP)
}

#[cycle(nodes)]
#[tactic(auto, using(crate::proofs::Codes::statements))]
fn nodes_of(stmts: &[Stmt]) -> usize
    ensures { result ≡ min (code_nodes (code_of stmts.now)) (most_nodes + 1) }
{
    let mut total = 0;
    for stmt in stmts {
        total = (total + stmt_nodes(stmt)).min(CAP);
    }
    total
}

#[cycle(nodes)]
#[tactic(auto, using(crate::proofs::Codes::statements))]
fn stmt_nodes(stmt: &Stmt) -> usize
    ensures { result ≡ min (statement_nodes (statement_of stmt.now)) (most_nodes + 1) }
{
    match stmt {
        Stmt::If { yes, no, .. } => {
            (3 + nodes_of(yes.as_slice()) + nodes_of(no.as_slice())).min(CAP)
        }
        Stmt::Loop {
            pre,
            body,
            step,
            first,
            ..
        } => {
            let around = nodes_of(pre.as_slice()) + nodes_of(body.as_slice());
            if *first {
                (3 + around).min(CAP)
            } else {
                (4 + around + nodes_of(step.as_slice())).min(CAP)
            }
        }
        Stmt::Set { .. } => 1,
        Stmt::Any { .. } => 1,
        Stmt::Call { .. } => 1,
        Stmt::Guard { .. } => 1,
        Stmt::Check { .. } => 1,
        Stmt::Break => 1,
        Stmt::Continue => 1,
        Stmt::Return => 1,
    }
}
