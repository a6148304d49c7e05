ghost use Rattle.std.specs.Prelude.{◌≡◌, ◌<◌, ◌++◌, ◌∷◌, All, ℕ, List, Option, length, slice_set, IfOk};
ghost use Rattle.std.specs.Vec.Iter.{into_iter_items};
ghost use Rattle.syntax_tree.specs.WellFormed.{IsWellFormed};
ghost use Rattle.posing.specs.Follows.{Asks};
ghost use Rattle.analysis.specs.Claims.{FitsFound, FoundIsMet, HasAll, HasFound, IsReadyGroup};
ghost use Rattle.analysis.specs.Found.{findings_by_plan, with_notes_at, nothing_found, put_at, with_group, with_part};
ghost use Rattle.analysis.specs.Plan.{IsPlan};

use crate::parts::{Part, part_of};
use crate::planning::Planned;
use farkas_check::Oracle;
use items::Items;
use posing::{Log, Note, WorkError};
use proc_summary::Flow;
use std::alloc::{AllocError, Global};
use std::vec::IntoIter;
use syntax_tree::Program;
use transition_formula::Formula;

/// What is found of a program's procedures so far, by their places: their summaries, their flows,
/// and the notes of a group at its first procedure.
#[derive(Debug, Drop)]
pub struct Found {
    pub known: Items<Option<Formula>>,
    pub flows: Items<Option<Flow>>,
    pub notes: Items<Items<Note>>,
}

impl Found {
    /// Nothing is known of so many procedures.
    pub fn nothing(alloc: Global, procs: usize) -> Result<Found, AllocError>
        ensures { IfOk result (λ found. found ≡ nothing_found procs) }
    {
        let mut known = Items::new(alloc);
        let mut flows = Items::new(alloc);
        let mut notes = Items::new(alloc);
        for _proc in 0..procs {
            known.push(None)?;
            flows.push(None)?;
            notes.push(Items::new(alloc))?;
        }
        Ok(Found {
            known,
            flows,
            notes,
        })
    }

    /// With what is found of a group of procedures.
    pub fn with_part(self, procs: &[u32], part: Part) -> Found
        requires known { All (λ proc. proc < length self.known) procs.now }
        requires flows { All (λ proc. proc < length self.flows) procs.now }
        requires notes { All (λ proc. proc < length self.notes) procs.now }
        ensures { result ≡ with_part self procs.now part }
    {
        let Found {
            known,
            flows,
            notes,
        } = self;
        let Part {
            formulas,
            flows: own,
            notes: noted,
        } = part;
        Found {
            known: put_at(procs, formulas, known),
            flows: put_at(procs, own, flows),
            notes: with_notes_at(procs, noted, notes),
        }
    }
}

/// Elements put at these places.
fn put_at<T: Drop>(places: &[u32], elements: Items<T>, all: Items<Option<T>>) -> Items<Option<T>>
    requires { All (λ place. place < length all) places.now }
    ensures { result ≡ put_at places.now elements all }
{
    let mut made = all.into_vec();
    let mut left = elements.into_iter();
    for place in places {
        made = put_next(*place as usize, &mut left, made);
    }
    Items::from_vec(made)
}

/// The next element put at a place, if there is one.
fn put_next<T: Drop>(place: usize, left: &mut IntoIter<T>, all: Vec<Option<T>>) -> Vec<Option<T>>
    requires { place < length all.items }
    ensures long { length result.items ≡ length all.items }
    ensures put { (more : List ℕ) → put_at more (into_iter_items left.new) result.items
        ≡ put_at (place ∷ more) (into_iter_items left.old) all.items }
{
    match left.next() {
        Some(element) => with_at(all, place, Some(element)),
        None => all,
    }
}

/// A list with another element at a place.
fn with_at<T: Drop>(all: Vec<T>, place: usize, element: T) -> Vec<T>
    requires { place < length all.items }
    ensures { result.items ≡ slice_set all.items place element }
{
    let mut made = all;
    made[place] = element;
    made
}

/// Notes put at the first of these places.
fn with_notes_at(places: &[u32], notes: Items<Note>, all: Items<Items<Note>>) -> Items<Items<Note>>
    requires { All (λ place. place < length all) places.now }
    ensures { result ≡ with_notes_at places.now notes all }
{
    match places {
        [] => all,
        [first, ..] => Items::from_vec(with_at(all.into_vec(), *first as usize, notes)),
    }
}

/// What is found of all groups of a plan.
#[tactic(auto, unfolding(crate::specs::Found::findings_by_plan))]
pub fn findings_by_plan<O: Oracle>(
    alloc: Global,
    program: &Program,
    plan: &[Planned],
    oracle: &mut O,
    log: &mut Log,
) -> Result<Found, WorkError>
    requires formed { IsWellFormed program.now }
    requires plan { IsPlan program.now plan.now }
    ensures follows { Asks O.asking oracle log result (findings_by_plan program.now plan.now) }
    ensures fits { IfOk result (FitsFound program.now) }
    ensures all { IfOk result (HasAll program.now) }
    ensures met { IfOk result (FoundIsMet program.now) }
{
    let mut found = Found::nothing(alloc, program.procs.len())?;
    for planned in plan {
        found = with_group(alloc, program, found, planned, oracle, log)?;
    }
    Ok(found)
}

#[tactic(auto, using(posing::proofs::Following::following), unfolding(crate::specs::Found::with_group))]
fn with_group<O: Oracle>(
    alloc: Global,
    program: &Program,
    found: Found,
    planned: &Planned,
    oracle: &mut O,
    log: &mut Log,
) -> Result<Found, WorkError>
    requires formed { IsWellFormed program.now }
    requires found { FitsFound program.now found }
    requires ready { IsReadyGroup program.now planned.now found.known }
    ensures follows { Asks O.asking oracle log result (with_group program.now found planned.now) }
    ensures fits { IfOk result (FitsFound program.now) }
    ensures has { (come : List ℕ) → HasFound come found
        → IfOk result (HasFound (come ++ planned.now.procs)) }
    ensures met { FoundIsMet program.now found → IfOk result (FoundIsMet program.now) }
{
    let part = part_of(alloc, program, planned, found.known.as_slice(), oracle, log)?;
    Ok(found.with_part(planned.procs.as_slice(), part))
}
