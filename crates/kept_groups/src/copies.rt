ghost use Rattle.std.specs.Prelude.{◌≡◌, IfOk};

use crate::kept::KeptPart;
use analysis::GroupSummaries;
use items::Items;
use proc_summary::{Flow, NodeFormula};
use std::alloc::{AllocError, Global};

/// A copy of what is kept of a group.
pub(crate) fn part_copy(alloc: Global, part: &KeptPart) -> Result<KeptPart, AllocError>
    ensures { IfOk result (λ copy. copy ≡ part.now) }
{
    let summaries = summaries_copy(alloc, &part.summaries)?;
    let notes = part.notes.clone()?;
    let answers = part.answers.clone()?;
    Ok(KeptPart {
        summaries,
        notes,
        answers,
    })
}

/// A copy of the summaries and flows of a group.
pub(crate) fn summaries_copy(
    alloc: Global,
    summaries: &GroupSummaries,
) -> Result<GroupSummaries, AllocError>
    ensures { IfOk result (λ copy. copy ≡ summaries.now) }
{
    let formulas = summaries.formulas.clone()?;
    let flows = flow_copies(alloc, summaries.flows.as_slice())?;
    Ok(GroupSummaries { formulas, flows })
}

fn flow_copies(alloc: Global, flows: &[Flow]) -> Result<Items<Flow>, AllocError>
    ensures { IfOk result (λ copies. copies ≡ flows.now) }
{
    let mut copies = Items::new(alloc);
    for flow in flows {
        copies.push(flow_copy(alloc, flow)?)?;
    }
    Ok(copies)
}

fn flow_copy(alloc: Global, flow: &Flow) -> Result<Flow, AllocError>
    ensures { IfOk result (λ copy. copy ≡ flow.now) }
{
    let exit = stop_copy(&flow.exit)?;
    let checks = stop_copies(alloc, flow.checks.as_slice())?;
    let calls = stop_copies(alloc, flow.calls.as_slice())?;
    let points = stop_copies(alloc, flow.points.as_slice())?;
    Ok(Flow {
        exit,
        checks,
        calls,
        points,
    })
}

fn stop_copies(alloc: Global, stops: &[NodeFormula]) -> Result<Items<NodeFormula>, AllocError>
    ensures { IfOk result (λ copies. copies ≡ stops.now) }
{
    let mut copies = Items::new(alloc);
    for stop in stops {
        copies.push(stop_copy(stop)?)?;
    }
    Ok(copies)
}

fn stop_copy(stop: &NodeFormula) -> Result<NodeFormula, AllocError>
    ensures { IfOk result (λ copy. copy ≡ stop.now) }
{
    let formula = stop.formula.clone()?;
    Ok(NodeFormula {
        node: stop.node,
        formula,
    })
}
