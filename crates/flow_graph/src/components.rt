ghost use Rattle.std.specs.Prelude.{◌≡◌, ◌<◌, ◌≤◌, ◌+◌, length, map, IfOk, OnOk};
ghost use Rattle.flow_graph.specs.Search.{state_of, all_new, after_entry, fresh, group_in, AreDone, last_start, with_starts, after_leaving, mark_of, AllReach, AreNumbers, IsAscending, IsCut, IsMarked, IsSound, Visited};
ghost use Rattle.flow_graph.specs.Components.{AreComponents};
ghost use Rattle.flow_graph.specs.declared.components.NumberMark.TheVariants.{New};

use crate::error::GraphError;
use items::Items;
use std::alloc::Global;

/// How far a number is.
#[derive(Clone, Copy, Debug, PartialEq, Eq)]
pub(crate) enum NumberMark {
    New,
    OnPath(usize),
    Done(usize),
}

/// A search: the marks of all numbers, the numbers on the path, the places of the path at which its
/// groups start, and how many groups are done.
#[derive(Debug, Drop)]
pub(crate) struct Search {
    marks: Vec<NumberMark>,
    path: Vec<u32>,
    starts: Vec<usize>,
    groups: usize,
}

/// The strong components of numbers: for each number its component. Components are numbered so that
/// a call leads to no later one.
#[derive(Debug, Drop)]
pub(crate) struct Components {
    pub(crate) group_of: Items<usize>,
    pub(crate) count: usize,
}

impl Search {
    /// Puts a number at the end of the path, as a group of its own.
    #[tactic(auto, using(crate::proofs::Entering::entered_sound))]
    fn enter(&mut self, p: u32) -> Result<(), GraphError>
        requires { p < length self.old.marks.items }
        ensures { OnOk result (state_of self.new ≡ after_entry (state_of self.old) p) }
    {
        self.starts.push(self.path.len())?;
        self.marks[p as usize] = NumberMark::OnPath(self.path.len());
        self.path.push(p)?;
        Ok(())
    }

    /// The place at which the last group of the path starts.
    fn last_start(&self) -> usize
        ensures { result ≡ last_start (state_of self.now) }
    {
        match self.starts.last() {
            Some(start) => *start,
            None => 0,
        }
    }

    /// Joins the groups that start behind a place of the path to the one that has it.
    fn join(&mut self, place: usize)
        requires { IsAscending self.old.starts.items }
        ensures cut { IsCut self.old.starts.items self.new.starts.items place }
        ensures rest { state_of self.new ≡ with_starts (state_of self.old) self.new.starts.items }
    {
        while self.last_start() > place {
            self.starts.pop();
        }
    }

    /// Ends the last group of the path, which starts at a place.
    fn leave(&mut self, at: usize)
        requires within { at < length self.old.path.items }
        requires marked { IsMarked (state_of self.old) }
        requires few { self.old.groups + length self.old.path.items ≤ length self.old.marks.items }
        ensures { state_of self.new ≡ after_leaving (state_of self.old) at }
    {
        for place in at..self.path.len() {
            self.marks[self.path[place] as usize] = NumberMark::Done(self.groups);
        }
        self.path.truncate(at);
        self.starts.pop();
        self.groups += 1;
    }

    /// Searches from a new number.
    #[tactic(auto, using(crate::proofs::Visiting::opened))]
    fn visit(&mut self, calls: &[Items<u32>], p: u32) -> Result<(), GraphError>
        requires sound { IsSound calls.now (state_of self.old) }
        requires new { mark_of (state_of self.old) p ≡ New }
        requires there { p < length self.old.marks.items }
        requires all { length calls.now ≡ length self.old.marks.items }
        requires numbers { AreNumbers calls.now (length calls.now) }
        requires reach { AllReach calls.now (state_of self.old) p }
        ensures { OnOk result (Visited calls.now (state_of self.old) (state_of self.new) p) }
    {
        let at = self.path.len();
        self.enter(p)?;
        for q in calls[p as usize].as_slice() {
            match self.marks[*q as usize] {
                NumberMark::New => self.visit(calls, *q)?,
                NumberMark::OnPath(place) => self.join(place),
                NumberMark::Done(_) => {}
            }
        }
        if self.last_start() == at {
            self.leave(at);
        }
        Ok(())
    }
}

#[tactic(auto, using(crate::proofs::Searching::new_more))]
fn new_marks(alloc: Global, count: u32) -> Result<Vec<NumberMark>, GraphError>
    ensures { IfOk result (λ marks. marks.items ≡ all_new count) }
{
    let mut marks = Vec::new(alloc);
    for _place in 0..count {
        marks.push(NumberMark::New)?;
    }
    Ok(marks)
}

// A search with so many numbers, all of them new.
fn fresh(alloc: Global, count: u32) -> Result<Search, GraphError>
    ensures { IfOk result (λ search. state_of search ≡ fresh count) }
{
    let marks = new_marks(alloc, count)?;
    Ok(Search {
        marks,
        path: Vec::new(alloc),
        starts: Vec::new(alloc),
        groups: 0,
    })
}

// Searches from each number that is still new.
#[tactic(auto, using(crate::proofs::Searching::none_done))]
fn search_all(alloc: Global, calls: &[Items<u32>], count: u32) -> Result<Search, GraphError>
    requires all { count ≡ length calls.now }
    requires numbers { AreNumbers calls.now (length calls.now) }
    ensures { IfOk result (λ search. AreDone calls.now (state_of search) (length calls.now)) }
{
    let mut search = fresh(alloc, count)?;
    for p in 0..count {
        match search.marks[p as usize] {
            NumberMark::New => search.visit(calls, p)?,
            NumberMark::OnPath(_) => {}
            NumberMark::Done(_) => {}
        }
    }
    Ok(search)
}

fn group_in(mark: &NumberMark) -> usize
    ensures { result ≡ group_in mark.now }
{
    match mark {
        NumberMark::New => 0,
        NumberMark::OnPath(_) => 0,
        NumberMark::Done(group) => *group,
    }
}

fn groups_in(alloc: Global, marks: &[NumberMark]) -> Result<Items<usize>, GraphError>
    ensures { IfOk result (λ groups. groups ≡ map group_in marks.now) }
{
    let mut groups = Items::new(alloc);
    for mark in marks {
        groups.push(group_in(mark))?;
    }
    Ok(groups)
}

/// The strong components of numbers below `count`, each with what it calls, by a path-based
/// depth-first search (Gabow 2000). It takes time with the number of calls.
#[tactic(auto, using(crate::proofs::Searching::are_components))]
pub(crate) fn strong_components(
    alloc: Global,
    calls: &[Items<u32>],
    count: u32,
) -> Result<Components, GraphError>
    requires all { count ≡ length calls.now }
    requires numbers { AreNumbers calls.now (length calls.now) }
    ensures { IfOk result (λ made. AreComponents calls.now made.group_of made.count) }
{
    let search = search_all(alloc, calls, count)?;
    let group_of = groups_in(alloc, &search.marks)?;
    Ok(Components {
        group_of,
        count: search.groups,
    })
}
