ghost use Rattle.std.specs.Prelude.{◌≡◌, ◌+◌, ◌<◌, ◌++◌, ℕ, length, map, IfOk, OnOk};
ghost use Rattle.std.specs.List.{flat_map};
ghost use Rattle.syntax_tree.specs.WellFormed.{IsWellFormed, width_of};
ghost use Rattle.syntax_tree.specs.declared.program.Proc.{Proc as Procedure};
ghost use Rattle.transition_formula.specs.Composition.{after_case, losses_by};
ghost use Rattle.posing.specs.Follows.{Asks};
ghost use Rattle.posing.specs.Logs.{Adds, loss_notes};
ghost use Rattle.vocabularies.specs.Ends.{entry_width};
ghost use Rattle.vocabularies.specs.Procs.{IsProcOf};
ghost use Rattle.proc_summary.specs.Claims.{FitsIf, IsBetweenStates, StopHolds};
ghost use Rattle.context.specs.Claims.{EntryHolds, IsEntry, IsEntryIf};
ghost use Rattle.context.specs.Entries.{stand_of};
ghost use Rattle.context.specs.Verdicts.{entry_or_none};
ghost use Rattle.point_steps.specs.Claims.{IsState, StateHolds};
ghost use Rattle.point_steps.specs.Parts.{ArePointEnds, HoldsAtPoint, IsEntryCase};
ghost use Rattle.point_steps.specs.States.{begun_case, losses_in_state, state_by, state_case, state_formula, state_from};

use crate::ends::{PointEnds, ends_of};
use crate::telling::{add_told, first_of, sequences};
use checked_tree::settled_and_fitted;
use context::{extended_case, extended_formula};
use farkas_check::Oracle;
use items::Items;
use linear_terms::Case;
use posing::{Log, WorkError};
use std::alloc::Global;
use syntax_tree::Program;
use transition_formula::{Formula, FormulaError, Loss};

/// The state of a point of a procedure, by the entry of the procedure and the formula from there to
/// the point: from no columns to those of the procedure at the point, and behind them those of its
/// entry as they were at the entry. Where the entry holds of the activations on a stack from `main`
/// and the formula of those of its procedure, the state holds of each that comes to the point, as
/// long as the answers are true. What is lost is noted before the first question.
///
/// # Errors
///
/// A question that the oracle refused, or want of memory.
pub fn state<O: Oracle>(
    alloc: Global,
    program: &Program,
    proc: u32,
    entry: &Option<Formula>,
    reach: &Option<Formula>,
    oracle: &mut O,
    log: &mut Log,
) -> Result<Formula, WorkError>
    requires formed { IsWellFormed program.now }
    requires procedure { proc < length program.now.procs }
    requires entry { (p : Procedure) → IsProcOf program.now proc p
        → IsEntryIf (entry_width program.now p) entry.now }
    requires reach { (p : Procedure) → IsProcOf program.now proc p
        → FitsIf (width_of program.now p) reach.now }
    ensures follows { (p : Procedure) → IsProcOf program.now proc p
        → Asks O.asking oracle log result (state_from program.now p entry.now reach.now) }
    ensures fits { (p : Procedure) → IsProcOf program.now proc p
        → IfOk result (IsState (width_of program.now p + entry_width program.now p)) }
    ensures holds { (node : ℕ) → EntryHolds program.now proc entry.now
        → StopHolds program.now proc (record { node = node; formula = reach.now })
        → IfOk result (StateHolds program.now proc node) }
{
    let ends = ends_of(alloc, program, proc)?;
    let begun = entry_or_none(alloc, ends.entry, entry)?;
    let led = stand_of(alloc, ends.columns, reach)?;
    state_by(alloc, &ends, &begun, &led, oracle, log)
}

/// The formula, or one without a case.
fn entry_or_none(
    alloc: Global,
    columns: u32,
    entry: &Option<Formula>,
) -> Result<Formula, FormulaError>
    ensures { IfOk result (λ f. f ≡ entry_or_none columns entry.now) }
{
    match entry {
        Some(f) => Ok(f.clone()?),
        None => Ok(Formula::from_cases(0, columns, Items::new(alloc))),
    }
}

/// The formula, or one without a case.
fn stand_of(alloc: Global, columns: u32, stand: &Option<Formula>) -> Result<Formula, FormulaError>
    ensures { IfOk result (λ f. f ≡ stand_of columns stand.now) }
{
    match stand {
        Some(f) => Ok(f.clone()?),
        None => Ok(Formula::from_cases(columns, columns, Items::new(alloc))),
    }
}

/// The state by the ends of the point, the formula of the entry and that which leads on.
#[tactic(auto, using(posing::proofs::Following::following), unfolding(crate::specs::States::state_by))]
fn state_by<O: Oracle>(
    alloc: Global,
    ends: &PointEnds,
    entry: &Formula,
    reach: &Formula,
    oracle: &mut O,
    log: &mut Log,
) -> Result<Formula, WorkError>
    requires ends { ArePointEnds ends.now }
    requires entry { IsEntry ends.now.entry entry.now }
    requires reach { IsBetweenStates ends.now.columns reach.now }
    ensures follows { Asks O.asking oracle log result (state_by ends.now entry.now reach.now) }
    ensures fits { IfOk result (IsState (ends.now.columns + ends.now.entry)) }
    ensures holds { IfOk result (HoldsAtPoint ends.now.columns entry.now reach.now) }
{
    let f = noted_formula(alloc, ends, entry, reach, log)?;
    let fitted = settled_and_fitted(alloc, &f, &ends.start, &ends.point, oracle, log)?;
    let whole = extended_formula(alloc, ends.columns + ends.entry, &fitted)?;
    Ok(whole)
}

/// Each case of the entry with each that leads on; what is lost is noted.
fn noted_formula(
    alloc: Global,
    ends: &PointEnds,
    entry: &Formula,
    reach: &Formula,
    log: &mut Log,
) -> Result<Formula, FormulaError>
    requires ends { ArePointEnds ends.now }
    requires entry { IsEntry ends.now.entry entry.now }
    requires reach { IsBetweenStates ends.now.columns reach.now }
    ensures noted { Adds (loss_notes (losses_in_state ends.now entry.now reach.now)) log.old log.new
        result }
    ensures exact { IfOk result (λ f. f ≡ state_formula ends.now entry.now reach.now) }
{
    let mut losses = Items::new(alloc);
    let f = state_formula(alloc, ends, entry, reach, &mut losses)?;
    log.add_losses(alloc, losses.as_slice())?;
    Ok(f)
}

fn state_formula(
    alloc: Global,
    ends: &PointEnds,
    entry: &Formula,
    reach: &Formula,
    losses: &mut Items<Loss>,
) -> Result<Formula, FormulaError>
    requires ends { ArePointEnds ends.now }
    requires entry { IsEntry ends.now.entry entry.now }
    requires reach { IsBetweenStates ends.now.columns reach.now }
    ensures exact { IfOk result (λ f. f ≡ state_formula ends.now entry.now reach.now) }
    ensures noted { OnOk result
        (losses.new ≡ losses.old ++ losses_in_state ends.now entry.now reach.now) }
{
    let mut cases = Items::new(alloc);
    for case in entry.cases() {
        add_states(alloc, ends, case, reach, losses, &mut cases)?;
    }
    Ok(Formula::from_cases(0, ends.columns + ends.remembered, cases))
}

/// Adds one case of the entry with each that leads on.
fn add_states(
    alloc: Global,
    ends: &PointEnds,
    entry: &Case,
    reach: &Formula,
    losses: &mut Items<Loss>,
    cases: &mut Items<Case>,
) -> Result<(), FormulaError>
    requires ends { ArePointEnds ends.now }
    requires entry { IsEntryCase ends.now.entry entry.now }
    requires reach { IsBetweenStates ends.now.columns reach.now }
    ensures made { OnOk result
        (cases.new ≡ cases.old ++ map (state_case ends.now entry.now) reach.now.cases) }
    ensures noted { OnOk result
        (losses.new ≡ losses.old
        ++ flat_map (λ case. losses_by (after_case (begun_case ends.now entry.now) case) case)
        reach.now.cases) }
{
    let first = extended_case(alloc, ends.columns - ends.entry, entry)?;
    let through = sequences(alloc, first, reach, losses)?;
    let remembered = first_of(entry.post.as_slice(), ends.remembered);
    add_told(alloc, &through, &[], remembered, cases)?;
    Ok(())
}
