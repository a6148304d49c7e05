//! What each procedure calls, and what is known of the groups.
ghost use Rattle.std.specs.Prelude.{◌≡◌, ◌<◌, ◌++◌, nat_lt, [], ◌∷◌, length, map, slice_index_or, slice_set, IfOk, OnOk};
ghost use Rattle.std.specs.List.{filter};
ghost use Rattle.syntax_tree.specs.Code.{code_of, statement_of};
ghost use Rattle.flow_graph.specs.Groups.{called, called_in};
ghost use Rattle.flow_graph.specs.Plans.{AreBelow, AreFilled, call_lists, called_below, empty_rows};

use crate::error::GraphError;
use crate::turns::{Plan, group_at};
use items::Items;
use std::alloc::Global;
use syntax_tree::{Program, Stmt};

#[cycle(calling)]
#[tactic(auto, using(syntax_tree::proofs::Codes::statements))]
fn push_calls(row: &mut Items<u32>, stmts: &[Stmt]) -> Result<(), GraphError>
    ensures { OnOk result (row.new ≡ row.old ++ called (code_of stmts.now)) }
{
    for stmt in stmts {
        push_call(row, stmt)?;
    }
    Ok(())
}

#[cycle(calling)]
#[tactic(auto, using(syntax_tree::proofs::Codes::statements))]
fn push_call(row: &mut Items<u32>, stmt: &Stmt) -> Result<(), GraphError>
    ensures { OnOk result (row.new ≡ row.old ++ called_in (statement_of stmt.now)) }
{
    match stmt {
        Stmt::Call { proc, .. } => row.push(*proc)?,
        Stmt::If { yes, no, .. } => {
            push_calls(row, yes.as_slice())?;
            push_calls(row, no.as_slice())?;
        }
        Stmt::Loop {
            pre,
            body,
            step,
            ..
        } => {
            push_calls(row, pre.as_slice())?;
            push_calls(row, body.as_slice())?;
            push_calls(row, step.as_slice())?;
        }
        Stmt::Set { .. } => {}
        Stmt::Any { .. } => {}
        Stmt::Guard { .. } => {}
        Stmt::Check { .. } => {}
        Stmt::Break => {}
        Stmt::Continue => {}
        Stmt::Return => {}
    }
    Ok(())
}

// Those that are numbers of procedures.
fn below(alloc: Global, all: &[u32], count: usize) -> Result<Items<u32>, GraphError>
    ensures { IfOk result (λ kept. kept ≡ filter (λ q. nat_lt q count) all.now) }
{
    let mut kept = Items::new(alloc);
    for q in all {
        if (*q as usize) < count {
            kept.push(*q)?;
        }
    }
    Ok(kept)
}

fn called_below(alloc: Global, count: usize, stmts: &[Stmt]) -> Result<Items<u32>, GraphError>
    ensures { IfOk result (λ kept. kept ≡ called_below count (code_of stmts.now)) }
{
    let mut all = Items::new(alloc);
    push_calls(&mut all, stmts)?;
    below(alloc, all.as_slice(), count)
}

// What each procedure calls.
pub(crate) fn call_lists(alloc: Global, program: &Program) -> Result<Items<Items<u32>>, GraphError>
    ensures { IfOk result (λ lists. lists ≡ call_lists program.now.procs) }
{
    let mut lists = Items::new(alloc);
    for proc in program.procs.as_slice() {
        let row = called_below(alloc, program.procs.len(), proc.body.as_slice())?;
        lists.push(row)?;
    }
    Ok(lists)
}

// A list of nothing for each group.
fn empty_rows(alloc: Global, count: usize) -> Result<Vec<Items<u32>>, GraphError>
    ensures { IfOk result (λ made. made.items ≡ empty_rows count) }
{
    let mut made = Vec::new(alloc);
    for _place in 0..count {
        made.push(Items::new(alloc))?;
    }
    Ok(made)
}

fn add(rows: &mut Vec<Items<u32>>, at: usize, p: u32) -> Result<(), GraphError>
    requires { at < length rows.old.items }
    ensures { OnOk result
        (rows.new.items
        ≡ slice_set rows.old.items at (slice_index_or rows.old.items at [] ++ p ∷ [])) }
{
    rows[at].push(p)?;
    Ok(())
}

fn extend(rows: &mut Vec<Items<u32>>, at: usize, more: Items<u32>) -> Result<(), GraphError>
    requires { at < length rows.old.items }
    ensures { OnOk result
        (rows.new.items
        ≡ slice_set rows.old.items at (slice_index_or rows.old.items at [] ++ more)) }
{
    rows[at].append(more)?;
    Ok(())
}

// Puts each procedure, and what it calls, into the rows of its group.
#[tactic(auto, using(crate::proofs::Filling::none_filled))]
pub(crate) fn plan(
    alloc: Global,
    calls: &[Items<u32>],
    groups: Items<usize>,
    count: usize,
    total: u32,
) -> Result<Plan, GraphError>
    requires all { total ≡ length calls.now }
    requires within { AreBelow groups (length calls.now) count }
    ensures { IfOk result
        (λ plan. (plan.groups ≡ groups) × AreFilled calls.now groups count (length calls.now)
        plan.members plan.rows) }
{
    let mut members = empty_rows(alloc, count)?;
    let mut rows = empty_rows(alloc, count)?;
    for p in 0..total {
        let group = group_at(groups.as_slice(), p);
        add(&mut members, group, p)?;
        let more = Items::from_slice(alloc, calls[p as usize].as_slice())?;
        extend(&mut rows, group, more)?;
    }
    Ok(Plan {
        groups,
        members: Items::from_vec(members),
        rows: Items::from_vec(rows),
    })
}
