ghost use Rattle.std.specs.Prelude.{◌≡◌, ◌↔◌, IfOk, None, IsTrue, length, replicate};
ghost use Rattle.std.specs.Option.{option_copied};
ghost use Rattle.newton_rounds.specs.Alike.{AreAlikeGroups};
ghost use Rattle.analysis.specs.Found.{put_at};
ghost use Rattle.kept_groups.specs.Kept.{AreKept, AreKeptIf, Anything, kept_summaries};
ghost use Rattle.kept_groups.specs.OneGroup.{FindsAlike, IsEarlier, groups_in, with_summary_at, known_if, summaries_with};

use crate::kept::{KeptGroups, KeptPart};
use alike_groups::{KnownGroup, are_alike};
use analysis::Planned;
use items::Items;
use std::alloc::{AllocError, Global};
use syntax_tree::Program;
use transition_formula::Formula;

/// The groups that were kept of another program, if they were, and the summary of each procedure
/// there.
#[derive(Drop)]
pub(crate) struct Earlier<'k> {
    pub(crate) groups: Option<&'k KeptGroups>,
    pub(crate) known: Items<Option<Formula>>,
}

impl<'k> Earlier<'k> {
    pub(crate) fn new(
        alloc: Global,
        kept: Option<&'k KeptGroups>,
    ) -> Result<Earlier<'k>, AllocError>
        requires { AreKeptIf Anything (option_copied kept) }
        ensures same { IfOk result (λ earlier. groups_in earlier ≡ option_copied kept.entry) }
        ensures earlier { IfOk result IsEarlier }
    {
        let known = match kept {
            Some(kept) => kept_summaries(alloc, kept)?,
            None => Items::new(alloc),
        };
        Ok(Earlier {
            groups: kept,
            known,
        })
    }
}

/// The summary of each procedure, as it is kept of its group.
fn kept_summaries(alloc: Global, kept: &KeptGroups) -> Result<Items<Option<Formula>>, AllocError>
    requires { AreKept Anything kept.now }
    ensures { IfOk result (λ known. known ≡ kept_summaries kept.now) }
{
    let known = nothing_known(alloc, kept.program.procs.len())?;
    summaries_with(known, kept.plan.as_slice(), kept.parts.as_slice())
}

/// With the summaries that are kept of the groups of a plan.
fn summaries_with(
    known: Items<Option<Formula>>,
    plan: &[Planned],
    parts: &[KeptPart],
) -> Result<Items<Option<Formula>>, AllocError>
    requires { length parts.now ≡ length plan.now }
    ensures { IfOk result (λ next. next ≡ summaries_with known plan.now parts.now) }
{
    let mut made = known;
    for (place, planned) in plan.iter().enumerate() {
        let formulas = parts[place].summaries.formulas.as_slice();
        made = with_formulas(planned.procs.as_slice(), formulas, made)?;
    }
    Ok(made)
}

fn nothing_known(alloc: Global, procs: usize) -> Result<Items<Option<Formula>>, AllocError>
    ensures { IfOk result (λ known. known ≡ replicate procs None) }
{
    let mut known = Items::new(alloc);
    for _proc in 0..procs {
        known.push(None)?;
    }
    Ok(known)
}

/// With copies of formulas at these places.
fn with_formulas(
    places: &[u32],
    formulas: &[Formula],
    known: Items<Option<Formula>>,
) -> Result<Items<Option<Formula>>, AllocError>
    ensures { IfOk result (λ next. next ≡ put_at places.now formulas.now known) }
{
    let mut made = known.into_vec();
    for (index, place) in places.iter().enumerate() {
        made = with_formula(*place as usize, formulas.get(index), made)?;
    }
    Ok(Items::from_vec(made))
}

fn with_formula(
    place: usize,
    formula: Option<&Formula>,
    known: Vec<Option<Formula>>,
) -> Result<Vec<Option<Formula>>, AllocError>
    ensures { IfOk result
        (λ next. next.items ≡ with_summary_at place (option_copied formula.entry) known.items) }
{
    let mut made = known;
    let Some(formula) = formula else {
        return Ok(made);
    };
    if place < made.len() {
        made[place] = Some(formula.clone()?);
    }
    Ok(made)
}

/// What is kept of the first group that nothing tells apart from this one.
pub(crate) fn alike_part<'k>(
    program: &Program,
    planned: &Planned,
    known: &[Option<Formula>],
    earlier: &Earlier<'k>,
) -> Option<&'k KeptPart>
    requires { IsEarlier earlier.now }
    ensures { FindsAlike (groups_in earlier.now) program.now known.now planned.now
        (option_copied result) }
{
    match earlier.groups {
        Some(kept) => alike_part_of(program, planned, known, kept, earlier.known.as_slice()),
        None => None,
    }
}

fn alike_part_of<'k>(
    program: &Program,
    planned: &Planned,
    known: &[Option<Formula>],
    kept: &'k KeptGroups,
    kept_known: &[Option<Formula>],
) -> Option<&'k KeptPart>
    requires kept { AreKept Anything kept.now }
    requires known { kept_known.now ≡ kept_summaries kept.now }
    ensures { FindsAlike (Some kept.now) program.now known.now planned.now (option_copied result) }
{
    let group = KnownGroup {
        program,
        procs: planned.procs.as_slice(),
        known,
    };
    for (place, other) in kept.plan.as_slice().iter().enumerate() {
        if is_alike(&group, kept, other, kept_known) {
            return kept.parts.as_slice().get(place);
        }
    }
    None
}

/// Whether nothing tells a group apart from one that was kept.
fn is_alike(
    group: &KnownGroup<'_>,
    kept: &KeptGroups,
    other: &Planned,
    known: &[Option<Formula>],
) -> bool
    ensures { IsTrue result
        ↔ AreAlikeGroups group.now.program.now kept.now.program group.now.procs.now other.now.procs
        group.now.known.now known.now }
{
    let other = KnownGroup {
        program: &kept.program,
        procs: other.procs.as_slice(),
        known,
    };
    are_alike(group, &other)
}
