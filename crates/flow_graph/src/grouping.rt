//! Groups of procedures that reach each other by calls.
ghost use Rattle.std.specs.Prelude.{IfOk};
ghost use Rattle.flow_graph.specs.Groups.{AreGroups};

use crate::components::strong_components;
use crate::error::GraphError;
use crate::planning::{call_lists, plan};
use crate::turns::in_order;
use items::Items;
use std::alloc::Global;
use syntax_tree::Program;

/// Procedures that reach each other by calls, in the order of the text, or one procedure alone.
#[derive(Debug, PartialEq, Eq, Drop)]
pub struct Group {
    /// Places of procedures in the program.
    pub procs: Items<u32>,
    /// Whether they reach themselves.
    pub recursive: bool,
}

/// The groups of a program's procedures, each behind those that it calls; of several that could
/// come next, the one with the first procedure in the text. It takes time with the number of calls,
/// but for the order among those that could come next, which takes the logarithm of their number
/// for each group.
pub fn groups(alloc: Global, program: &Program) -> Result<Items<Group>, GraphError>
    ensures { IfOk result (λ groups. AreGroups program.now groups) }
{
    // No memory has so many procedures.
    if program.procs.len() > u32::MAX as usize {
        return Err(GraphError::Memory);
    }
    let total = program.procs.len() as u32;
    let calls = call_lists(alloc, program)?;
    let made = strong_components(alloc, calls.as_slice(), total)?;
    let count = made.count;
    let plan = plan(alloc, calls.as_slice(), made.group_of, count, total)?;
    in_order(alloc, program, &plan, count)
}
