ghost use mathlib.Core.Bool.{beq};
ghost use Rattle.std.specs.Prelude.{◌≡◌};
ghost use Rattle.std.specs.Cmp.Lexicographic.{pointwise};
ghost use Rattle.syntax_tree.specs.WellFormed.{has_name};
ghost use Rattle.alike_groups.specs.Groups.{test_of};
ghost use Rattle.alike_groups.specs.Tests.{is_alike_member, is_alike_proc};

use crate::group::KnownGroup;
use crate::stmts::are_alike_stmts;
use syntax_tree::{Column, Proc};

/// Whether the procedures of these numbers are alike where those that they call are.
pub(crate) fn is_alike_member(
    proc: u32,
    next: u32,
    group: &KnownGroup<'_>,
    other: &KnownGroup<'_>,
) -> bool
    ensures { result
        ≡ is_alike_member (test_of group.now other.now) group.now.program.now other.now.program.now
        proc next }
{
    let procs = group.program.procs.as_slice();
    let others = other.program.procs.as_slice();
    match (procs.get(proc as usize), others.get(next as usize)) {
        (Some(p), Some(q)) => is_alike_proc(p, q, group, other),
        _ => false,
    }
}

fn is_alike_proc(p: &Proc, q: &Proc, group: &KnownGroup<'_>, other: &KnownGroup<'_>) -> bool
    ensures { result
        ≡ is_alike_proc (test_of group.now other.now) group.now.program.now other.now.program.now
        p.now q.now }
{
    group.program.globals.len() == other.program.globals.len()
        && group.program.rule == other.program.rule
        && p.params == q.params
        && p.returns == q.returns
        && are_same_names(p.columns.as_slice(), q.columns.as_slice())
        && are_alike_stmts(p.body.as_slice(), q.body.as_slice(), group, other)
}

/// Whether the columns with names stand at the same places.
fn are_same_names(columns: &[Column], others: &[Column]) -> bool
    ensures { result ≡ pointwise (λ a b. beq (has_name a) (has_name b)) columns.now others.now }
{
    if columns.len() != others.len() {
        return false;
    }
    for (place, column) in columns.iter().enumerate() {
        if column.name.is_some() != others[place].name.is_some() {
            return false;
        }
    }
    true
}
