//! The order of groups: a group comes once all that it calls outside of itself has come.
ghost use Rattle.std.specs.Prelude.{◌≡◌, ◌<◌, ◌++◌, [], ◌∷◌, length, slice_index_or, slice_set, IfOk, OnOk};
ghost use Rattle.flow_graph.specs.Components.{group_at};
ghost use Rattle.flow_graph.specs.Turns.{ArePast, AreWithin, Going, IsBlocked, NoneCame, Settled, first_of, flag, is_past, leads_back, members_of, row_of, stage_of, at_first, zeros};
ghost use Rattle.flow_graph.specs.Plans.{empty_rows};
ghost use Rattle.flow_graph.specs.Numbers.{no_bits, numbers_from};
ghost use Rattle.flow_graph.specs.Groups.{AreGroups};

use crate::error::GraphError;
use crate::grouping::Group;
use items::Items;
use std::alloc::Global;
use std::collections::BTreeSet;
use syntax_tree::Program;

/// What is known of groups: of each procedure its group, of each group its procedures and what they
/// call.
#[derive(Debug, Drop)]
pub(crate) struct Plan {
    pub(crate) groups: Items<usize>,
    pub(crate) members: Items<Items<u32>>,
    pub(crate) rows: Items<Items<u32>>,
}

/// Which groups have come, which wait at each group, at which place of its calls each goes on, and
/// the first procedures of those that are ready.
#[derive(Drop)]
pub(crate) struct Order {
    come: Vec<bool>,
    waiting: Vec<Items<usize>>,
    next: Vec<usize>,
    ready: BTreeSet<u32>,
}

pub(crate) fn group_at(groups: &[usize], p: u32) -> usize
    ensures { result ≡ group_at groups.now p }
{
    match groups.get(p as usize) {
        Some(group) => *group,
        None => 0,
    }
}

fn flag(come: &[bool], group: usize) -> bool
    ensures { result ≡ flag come.now group }
{
    match come.get(group) {
        Some(flag) => *flag,
        None => false,
    }
}

fn row_of(plan: &Plan, group: usize) -> &[u32]
    ensures { result.now ≡ row_of plan.now group }
{
    match plan.rows.as_slice().get(group) {
        Some(row) => row.as_slice(),
        None => &[],
    }
}

fn first_of(plan: &Plan, group: usize) -> u32
    ensures { result ≡ first_of plan.now group }
{
    match plan.members.as_slice().get(group) {
        Some(members) => match members.as_slice().first() {
            Some(first) => *first,
            None => 0,
        },
        None => 0,
    }
}

fn is_past(groups: &[usize], come: &[bool], group: usize, q: u32) -> bool
    ensures { result ≡ is_past groups.now come.now group q }
{
    group_at(groups, q) == group || flag(come, group_at(groups, q))
}

// The next place of a row that is not past.
fn next_open_place(groups: &[usize], come: &[bool], row: &[u32], group: usize, from: usize) -> usize
    ensures { IsBlocked groups.now come.now row.now group from result }
{
    for at in from..row.len() {
        if !is_past(groups, come, group, row[at]) {
            return at;
        }
    }
    row.len()
}

fn wait(waiting: &mut Vec<Items<usize>>, at: usize, group: usize) -> Result<(), GraphError>
    requires { at < length waiting.old.items }
    ensures { OnOk result
        (waiting.new.items
        ≡ slice_set waiting.old.items at (slice_index_or waiting.old.items at [] ++ group ∷ [])) }
{
    waiting[at].push(group)?;
    Ok(())
}

impl Order {
    // Looks at a group: it is ready, or waits at the next group of its calls that has not come.
    fn settle(&mut self, plan: &Plan, group: usize) -> Result<(), GraphError>
        requires past { ArePast plan.now (stage_of self.old) }
        requires within { AreWithin plan.now (stage_of self.old) group }
        requires there { group < length self.old.next.items }
        ensures { OnOk result (Settled plan.now (stage_of self.old) (stage_of self.new) group) }
    {
        if flag(&self.come, group) {
            return Ok(());
        }
        let groups = plan.groups.as_slice();
        let row = row_of(plan, group);
        let at = next_open_place(groups, &self.come, row, group, self.next[group]);
        self.next[group] = at;
        if at < row.len() {
            wait(&mut self.waiting, group_at(groups, row[at]), group)
        } else {
            self.ready.insert(first_of(plan, group))?;
            Ok(())
        }
    }

    // Looks at these groups, one after the other.
    #[tactic(auto, using(crate::proofs::Orders::within_all))]
    fn settle_all(
        &mut self,
        program: &Program,
        plan: &Plan,
        todo: &[usize],
    ) -> Result<(), GraphError>
        requires { Going program.now plan.now (stage_of self.old) todo.now }
        ensures { OnOk result (Going program.now plan.now (stage_of self.new) []
            × (self.new.come.items ≡ self.old.come.items)) }
    {
        for group in todo {
            self.settle(plan, *group)?;
        }
        Ok(())
    }
}

// Whether a row leads back into its own group.
fn leads_back(groups: &[usize], group: usize, row: &[u32]) -> bool
    ensures { result ≡ leads_back groups.now group row.now }
{
    for q in row {
        if group_at(groups, *q) == group {
            return true;
        }
    }
    false
}

fn members_of(plan: &Plan, group: usize) -> &[u32]
    ensures { result.now ≡ members_of plan.now group }
{
    match plan.members.as_slice().get(group) {
        Some(members) => members.as_slice(),
        None => &[],
    }
}

fn waiters(waiting: &[Items<usize>], group: usize) -> &[usize]
    ensures { result.now ≡ slice_index_or waiting.now group [] }
{
    match waiting.get(group) {
        Some(waiters) => waiters.as_slice(),
        None => &[],
    }
}

impl Order {
    // Looks at the groups that wait at this one.
    fn wake(
        &mut self,
        alloc: Global,
        program: &Program,
        plan: &Plan,
        group: usize,
    ) -> Result<(), GraphError>
        requires { Going program.now plan.now (stage_of self.old)
            (slice_index_or self.old.waiting.items group []) }
        ensures { OnOk result (Going program.now plan.now (stage_of self.new) []
            × (self.new.come.items ≡ self.old.come.items)) }
    {
        let todo = Items::from_slice(alloc, waiters(&self.waiting, group))?;
        self.settle_all(program, plan, todo.as_slice())
    }
}

// The group of a number, as it comes.
fn group_with_number(alloc: Global, plan: &Plan, group: usize) -> Result<Group, GraphError>
    ensures { IfOk result (λ made. (made.procs ≡ members_of plan.now group)
        × (made.recursive ≡ leads_back plan.now.groups group (row_of plan.now group))) }
{
    let procs = Items::from_slice(alloc, members_of(plan, group))?;
    let recursive = leads_back(plan.groups.as_slice(), group, row_of(plan, group));
    Ok(Group { procs, recursive })
}

// All groups, one after the other.
pub(crate) fn groups_in_order(
    alloc: Global,
    program: &Program,
    plan: &Plan,
    order: &mut Order,
) -> Result<Items<Group>, GraphError>
    requires going { Going program.now plan.now (stage_of order.old) [] }
    requires none { NoneCame (stage_of order.old) }
    ensures { IfOk result (λ groups. AreGroups program.now groups) }
{
    let mut groups = Items::new(alloc);
    while let Some(first) = order.ready.pop_first() {
        let group = group_at(plan.groups.as_slice(), first);
        order.come[group] = true;
        let made = group_with_number(alloc, plan, group)?;
        groups.push(made)?;
        order.wake(alloc, program, plan, group)?;
    }
    Ok(groups)
}

#[tactic(auto, using(crate::proofs::Filling::rows_more))]
fn empty_waiting(alloc: Global, count: usize) -> Result<Vec<Items<usize>>, GraphError>
    ensures { IfOk result (λ made. made.items ≡ empty_rows count) }
{
    let mut made = Vec::new(alloc);
    for _place in 0..count {
        made.push(Items::new(alloc))?;
    }
    Ok(made)
}

#[tactic(auto, using(crate::proofs::GroupOrders::zeros_more))]
fn zeros(alloc: Global, count: usize) -> Result<Vec<usize>, GraphError>
    ensures { IfOk result (λ made. made.items ≡ zeros count) }
{
    let mut made = Vec::new(alloc);
    for _place in 0..count {
        made.push(0)?;
    }
    Ok(made)
}

#[tactic(auto, using(crate::proofs::Tables::pushes))]
fn no_bits(alloc: Global, count: usize) -> Result<Vec<bool>, GraphError>
    ensures { IfOk result (λ made. made.items ≡ no_bits count) }
{
    let mut made = Vec::new(alloc);
    for _place in 0..count {
        made.push(false)?;
    }
    Ok(made)
}

// The numbers of all groups.
#[tactic(auto, using(crate::proofs::Tables::pushes))]
fn numbers(alloc: Global, count: usize) -> Result<Items<usize>, GraphError>
    ensures { IfOk result (λ numbers. numbers ≡ numbers_from 0 count) }
{
    let mut numbers = Items::new(alloc);
    for number in 0..count {
        numbers.push(number)?;
    }
    Ok(numbers)
}

// No group has come.
fn start(alloc: Global, count: usize) -> Result<Order, GraphError>
    ensures { IfOk result (λ order. stage_of order ≡ at_first count) }
{
    let come = no_bits(alloc, count)?;
    let waiting = empty_waiting(alloc, count)?;
    let next = zeros(alloc, count)?;
    Ok(Order {
        come,
        waiting,
        next,
        ready: BTreeSet::new(alloc),
    })
}

// The groups by their plan, in order.
pub(crate) fn in_order(
    alloc: Global,
    program: &Program,
    plan: &Plan,
    count: usize,
) -> Result<Items<Group>, GraphError>
    requires { Going program.now plan.now (at_first count) (numbers_from 0 count) }
    ensures { IfOk result (λ groups. AreGroups program.now groups) }
{
    let mut order = start(alloc, count)?;
    let all = numbers(alloc, count)?;
    order.settle_all(program, plan, all.as_slice())?;
    groups_in_order(alloc, program, plan, &mut order)
}
