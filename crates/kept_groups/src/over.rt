ghost use Rattle.std.specs.Prelude.{◌≡◌, ◌<◌, ◌+◌, ◌^◌, All, length, IfOk};
ghost use Rattle.std.specs.Option.{option_copied};
ghost use Rattle.syntax_tree.specs.WellFormed.{IsWellFormed};
ghost use Rattle.leaf_cases.specs.Conditions.{AreKnown};
ghost use Rattle.analysis.specs.Claims.{FitsFound, IsReadyGroup};
ghost use Rattle.analysis.specs.Parts.{part_with};
ghost use Rattle.analysis.specs.Plan.{IsPlan};
ghost use Rattle.analysis_laws.specs.Laws.{IsWhole};
ghost use Rattle.kept_groups.specs.Kept.{AreKeptIf, Anything};
ghost use Rattle.kept_groups.specs.OneGroup.{Ends, IsComing, IsDeclined, IsEarlier, IsMade, IsOneMore, IsStuck, groups_in, nothing_yet, with_coming};
ghost use Rattle.kept_groups.specs.Outcomes.{FindsOver};

use crate::alike::{Earlier, alike_part};
use crate::copies::{part_copy, summaries_copy};
use crate::kept::{KeptGroups, KeptPart};
use crate::steps::Steps;
use analysis::{Found, Part, Planned, part_with, summaries_apart};
use farkas_check::Oracle;
use items::Items;
use posing::{Log, WorkError};
use std::alloc::{AllocError, Global};
use std::sync::ledger::Ledger;
use syntax_tree::Program;
use transition_formula::Formula;

/// What is found of a program's procedures, the part of each group, to be kept, and how many groups
/// were summed up by asking.
#[derive(Debug, Drop)]
pub struct FoundParts {
    pub found: Found,
    pub parts: Items<KeptPart>,
    pub work: usize,
}

/// What is to be kept of a group, and whether it is taken over from an alike one.
#[derive(Drop)]
struct ComingPart {
    part: KeptPart,
    taken: bool,
}

/// What is found of all groups of a plan, where some groups of another program were kept.
///
/// A group that is alike to one that was kept takes that part over, the first of them, and poses no
/// question. Each other one is summed up by asking the oracle, which is one step.
pub fn findings_over<O: Oracle, L: Ledger>(
    alloc: Global,
    program: &Program,
    plan: &[Planned],
    kept: Option<&KeptGroups>,
    oracle: &mut O,
    steps: &mut Steps<L>,
) -> Result<FoundParts, WorkError>
    requires formed { IsWellFormed program.now }
    requires plan { IsPlan program.now plan.now }
    requires kept { AreKeptIf Anything (option_copied kept) }
    ensures comes { FindsOver O.asking (option_copied kept.entry) program.now plan.now oracle.old
        oracle.new
        steps.old steps.new result }
    ensures whole { IfOk result (λ made. IsWhole program.now made.found) }
{
    let earlier = Earlier::new(alloc, kept)?;
    let mut made = nothing_yet(alloc, program.procs.len())?;
    for planned in plan {
        made = with_group(alloc, program, planned, made, &earlier, oracle, steps)?;
    }
    Ok(made)
}

/// Nothing is found yet of so many procedures.
fn nothing_yet(alloc: Global, procs: usize) -> Result<FoundParts, AllocError>
    ensures { IfOk result (λ made. made ≡ nothing_yet procs) }
{
    let found = Found::nothing(alloc, procs)?;
    Ok(FoundParts {
        found,
        parts: Items::new(alloc),
        work: 0,
    })
}

/// With what is found of one group more.
fn with_group<O: Oracle, L: Ledger>(
    alloc: Global,
    program: &Program,
    planned: &Planned,
    made: FoundParts,
    earlier: &Earlier<'_>,
    oracle: &mut O,
    steps: &mut Steps<L>,
) -> Result<FoundParts, WorkError>
    requires formed { IsWellFormed program.now }
    requires found { FitsFound program.now made.found }
    requires ready { IsReadyGroup program.now planned.now made.found.known }
    requires earlier { IsEarlier earlier.now }
    requires few { made.work + 1 < 2 ^ 64 }
    ensures { Ends O.asking
        (IsOneMore O.asking (groups_in earlier.now) program.now made planned.now oracle.old oracle.new
        steps.old steps.new)
        (IsStuck O.asking (groups_in earlier.now) program.now made.found.known planned.now oracle.old
        oracle.new)
        oracle.old oracle.new result }
{
    let known = made.found.known.as_slice();
    let coming = coming_part(alloc, program, planned, known, earlier, oracle, steps)?;
    Ok(with_coming(alloc, planned, made, coming)?)
}

/// The part of a group: what is kept of the first one that is alike, or else made by asking.
fn coming_part<O: Oracle, L: Ledger>(
    alloc: Global,
    program: &Program,
    planned: &Planned,
    known: &[Option<Formula>],
    earlier: &Earlier<'_>,
    oracle: &mut O,
    steps: &mut Steps<L>,
) -> Result<ComingPart, WorkError>
    requires formed { IsWellFormed program.now }
    requires known { AreKnown program.now known.now }
    requires ready { IsReadyGroup program.now planned.now known.now }
    requires earlier { IsEarlier earlier.now }
    ensures { Ends O.asking
        (IsComing O.asking (groups_in earlier.now) program.now known.now planned.now oracle.old
        oracle.new steps.old steps.new)
        (IsStuck O.asking (groups_in earlier.now) program.now known.now planned.now oracle.old
        oracle.new)
        oracle.old oracle.new result }
{
    match alike_part(program, planned, known, earlier) {
        Some(part) => {
            let part = part_copy(alloc, part)?;
            Ok(ComingPart { part, taken: true })
        }
        None => {
            let part = new_part(alloc, program, planned, known, oracle, steps)?;
            Ok(ComingPart { part, taken: false })
        }
    }
}

/// The part of a group that is summed up by asking, which is one step.
fn new_part<O: Oracle, L: Ledger>(
    alloc: Global,
    program: &Program,
    planned: &Planned,
    known: &[Option<Formula>],
    oracle: &mut O,
    steps: &mut Steps<L>,
) -> Result<KeptPart, WorkError>
    requires formed { IsWellFormed program.now }
    requires known { AreKnown program.now known.now }
    requires ready { IsReadyGroup program.now planned.now known.now }
    ensures makes { Ends O.asking
        (IsMade O.asking program.now known.now planned.now oracle.old oracle.new)
        (IsDeclined O.asking program.now known.now planned.now oracle.old oracle.new)
        oracle.old oracle.new result }
    ensures step { steps.new ≡ steps.old + 1 }
{
    steps.tick();
    let mut log = Log::new(alloc);
    let (summaries, notes) = summaries_apart(alloc, program, planned, known, oracle, &mut log)?;
    let Log { answers, .. } = log;
    Ok(KeptPart {
        summaries,
        notes,
        answers,
    })
}

/// With a part that has come.
fn with_coming(
    alloc: Global,
    planned: &Planned,
    made: FoundParts,
    coming: ComingPart,
) -> Result<FoundParts, AllocError>
    requires known { All (λ proc. proc < length made.found.known) planned.now.procs }
    requires flows { All (λ proc. proc < length made.found.flows) planned.now.procs }
    requires notes { All (λ proc. proc < length made.found.notes) planned.now.procs }
    requires few { made.work + 1 < 2 ^ 64 }
    ensures { IfOk result (λ next. next ≡ with_coming made planned.now coming) }
{
    let FoundParts {
        found,
        mut parts,
        work,
    } = made;
    let ComingPart { part, taken } = coming;
    let procs = planned.procs.as_slice();
    let own = found_part(alloc, procs, &part)?;
    parts.push(part)?;
    Ok(FoundParts {
        found: found.with_part(procs, own),
        parts,
        work: if taken { work } else { work + 1 },
    })
}

/// What is found of a group by what is kept of it.
fn found_part(alloc: Global, procs: &[u32], part: &KeptPart) -> Result<Part, AllocError>
    ensures { IfOk result (λ own. own ≡ part_with procs.now part.now.summaries part.now.notes) }
{
    let summaries = summaries_copy(alloc, &part.summaries)?;
    let notes = part.notes.clone()?;
    part_with(alloc, procs, summaries, notes)
}
