ghost use Rattle.std.specs.List.{flat_map};
ghost use Rattle.std.specs.Prelude.{◌≡◌, ◌<◌, ◌^◌, ◌++◌, length, map, IfOk, OnOk};
ghost use Rattle.std.specs.List.{flat_map};
ghost use Rattle.syntax_tree.specs.Term.{term_of};
ghost use Rattle.flow_graph.specs.Plain.{arc_of, statement_of_act};
ghost use Rattle.newton_rounds.specs.Members.{call_by, call_to, place_of};
ghost use Rattle.newton_rounds.specs.Shapes.{plain_call};

use flow_graph::{Act, Edge};
use items::Items;
use std::alloc::{AllocError, Global};
use syntax_tree::{Core, copy_cores};
use transition_formula::Formula;

/// A call of a procedure of the group by one: their places in the group, the nodes that its edge
/// leads from and to, the arguments, and the column that awaits the value.
#[derive(Drop)]
pub(crate) struct GroupCall {
    pub(crate) caller: u32,
    pub(crate) callee: u32,
    pub(crate) from: u32,
    pub(crate) to: u32,
    pub(crate) args: Items<Core>,
    pub(crate) into: Option<u32>,
}

/// What holds from a caller's entry to where a call of the group begins, and what holds from where
/// it ends to the caller's exit.
#[derive(Drop)]
pub(crate) struct Sides {
    pub(crate) before: Option<Formula>,
    pub(crate) after: Option<Formula>,
}

/// The calls of the group among the edges of one of its procedures, in their order.
pub(crate) fn calls_of(
    alloc: Global,
    edges: &[Edge],
    procs: &[u32],
    caller: u32,
) -> Result<Items<GroupCall>, AllocError>
    requires { length procs.now < 2 ^ 32 }
    ensures { IfOk result
        (λ calls. map plain_call calls ≡ flat_map (λ way. call_by procs.now caller way way.act)
        (map arc_of edges.now)) }
{
    let mut calls = Items::new(alloc);
    for edge in edges {
        add_call(alloc, edge, procs, caller, &mut calls)?;
    }
    Ok(calls)
}

/// Adds the call of an edge, if it is one of the group.
fn add_call(
    alloc: Global,
    edge: &Edge,
    procs: &[u32],
    caller: u32,
    calls: &mut Items<GroupCall>,
) -> Result<(), AllocError>
    requires { length procs.now < 2 ^ 32 }
    ensures { OnOk result
        (map plain_call calls.new ≡ map plain_call calls.old ++ call_by procs.now caller
        (arc_of edge.now) (statement_of_act edge.now.act)) }
{
    match &edge.act {
        Act::Call { proc, args, into } => {
            add_call_to(
                alloc,
                edge,
                place_of(procs, *proc),
                args,
                *into,
                caller,
                calls,
            )
        }
        Act::Guard(_) | Act::Set(..) | Act::Any(_) => Ok(()),
    }
}

fn add_call_to(
    alloc: Global,
    edge: &Edge,
    callee: Option<u32>,
    args: &Items<Core>,
    into: Option<u32>,
    caller: u32,
    calls: &mut Items<GroupCall>,
) -> Result<(), AllocError>
    ensures { OnOk result
        (map plain_call calls.new ≡ map plain_call calls.old ++ call_to caller (arc_of edge.now)
        (map term_of args.now) into callee) }
{
    let Some(callee) = callee else {
        return Ok(());
    };
    let args = copy_cores(alloc, args)?;
    calls.push(GroupCall {
        caller,
        callee,
        from: edge.from,
        to: edge.to,
        args,
        into,
    })?;
    Ok(())
}

/// Where a procedure stands in the group.
fn place_of(procs: &[u32], proc: u32) -> Option<u32>
    requires { length procs.now < 2 ^ 32 }
    ensures { result ≡ place_of proc procs.now }
{
    for (place, other) in procs.iter().enumerate() {
        if *other == proc {
            return Some(place as u32);
        }
    }
    None
}
