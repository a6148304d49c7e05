ghost use Rattle.std.specs.Prelude.{◌≡◌, ◌<◌, [], ◌∷◌, ◌++◌, length, replicate, get_or, slice_set, IfOk};
ghost use Rattle.std.specs.List.{AllByRecursion, concat, range_with_len};
ghost use Rattle.forward_graphs.specs.Order.{groups, in_order, node_at, node_of, numbers_of};
ghost use Rattle.forward_graphs.specs.Placing.{ArePlaced, IsInside};

use crate::step::{Step, step_at};
use items::Items;
use std::alloc::{AllocError, Global};

/// An end of a step.
#[derive(Clone, Copy, Debug, PartialEq, Eq)]
pub enum StepEnd {
    /// The node that it starts at.
    Start,
    /// The node that it leads to.
    Target,
}

/// The numbers of steps in ascending order of the nodes that they start at, then of those that they
/// lead to.
#[tactic(auto, unfolding(crate::specs::Order::in_order))]
pub(crate) fn in_order(
    alloc: Global,
    nodes: usize,
    steps: &[Step],
) -> Result<Items<usize>, AllocError>
    requires { AllByRecursion (IsInside nodes) steps.now }
    ensures { IfOk result (λ order. order ≡ in_order nodes steps.now) }
{
    let numbers = numbers_below(alloc, steps.len())?;
    let by_target = groups(alloc, nodes, steps, StepEnd::Target, numbers.as_slice())?;
    let targets = concatenation(alloc, by_target.as_slice())?;
    let by_start = groups(alloc, nodes, steps, StepEnd::Start, targets.as_slice())?;
    concatenation(alloc, by_start.as_slice())
}

/// For each node the numbers of the steps that have it at an end, in their order.
pub(crate) fn groups(
    alloc: Global,
    nodes: usize,
    steps: &[Step],
    end: StepEnd,
    numbers: &[usize],
) -> Result<Items<Items<usize>>, AllocError>
    requires { ArePlaced nodes steps.now numbers.now }
    ensures { IfOk result (λ made. made ≡ groups nodes steps.now end numbers.now) }
{
    let mut made = empty_groups(alloc, nodes)?;
    for number in numbers {
        let node = node_at(steps, end, *number);
        made = with_number(made, node, *number)?;
    }
    Ok(made)
}

fn node_at(steps: &[Step], end: StepEnd, number: usize) -> usize
    requires { number < length steps.now }
    ensures { result ≡ node_at steps.now end number }
{
    let step = step_at(steps, number);
    match end {
        StepEnd::Start => step.from as usize,
        StepEnd::Target => step.to as usize,
    }
}

fn empty_groups(alloc: Global, nodes: usize) -> Result<Items<Items<usize>>, AllocError>
    ensures { IfOk result (λ made. made ≡ replicate nodes []) }
{
    let mut made = Items::new(alloc);
    for _node in 0..nodes {
        made.push(Items::new(alloc))?;
    }
    Ok(made)
}

/// The groups with a number behind those of a node.
fn with_number(
    groups: Items<Items<usize>>,
    node: usize,
    number: usize,
) -> Result<Items<Items<usize>>, AllocError>
    requires { node < length groups }
    ensures { IfOk result
        (λ made. made ≡ slice_set groups node (get_or groups node [] ++ number ∷ [])) }
{
    let mut groups = groups.into_vec();
    groups[node].push(number)?;
    Ok(Items::from_vec(groups))
}

/// The numbers of all groups, one group after the other.
fn concatenation(alloc: Global, groups: &[Items<usize>]) -> Result<Items<usize>, AllocError>
    ensures { IfOk result (λ made. made ≡ concat groups.now) }
{
    let mut made = Items::new(alloc);
    for group in groups {
        made.append(Items::from_slice(alloc, group.as_slice())?)?;
    }
    Ok(made)
}

/// The numbers below one.
pub(crate) fn numbers_below(alloc: Global, count: usize) -> Result<Items<usize>, AllocError>
    ensures { IfOk result (λ numbers. numbers ≡ range_with_len 0 count) }
{
    let mut numbers = Items::new(alloc);
    for number in 0..count {
        numbers.push(number)?;
    }
    Ok(numbers)
}
