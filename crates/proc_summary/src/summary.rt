ghost use Rattle.std.specs.Prelude.{◌≡◌, ◌<◌, ◌++◌, Some, length, IfOk, OnOk};
ghost use Rattle.syntax_tree.specs.WellFormed.{IsWellFormed, width_of};
ghost use Rattle.vocabularies.specs.Ends.{entry_width};
ghost use Rattle.vocabularies.specs.Procs.{IsProcOf};
ghost use Rattle.syntax_tree.specs.declared.program.Proc.{Proc as Procedure};
ghost use Rattle.transition_formula.specs.Hiding.{losses_in_hiding};
ghost use Rattle.transition_formula.specs.Meaning.{Covers};
ghost use Rattle.posing.specs.Follows.{Asks};
ghost use Rattle.leaf_cases.specs.Conditions.{IsKnown};
ghost use Rattle.leaf_cases.specs.Summaries.{SummaryIsMet};
ghost use Rattle.proc_summary.specs.Summary.{ends_of, exit_formula, exit_places, summary_from, projection_of};
ghost use Rattle.proc_summary.specs.Claims.{FitsFlow, FitsIf, FlowHolds};
ghost use Rattle.proc_summary.specs.Parts.{IsToldBy, IsToldFrom};

use crate::columns::{columns_of, exit_places};
use crate::stop::Flow;
use checked_tree::settled_and_fitted;
use farkas_check::Oracle;
use items::Items;
use polyhedra::{Log, WorkError};
use std::alloc::Global;
use syntax_tree::Program;
use transition_formula::{Formula, FormulaError, Loss, hidden, with_posts};
use vocabularies::entry;

/// The summary of a procedure by its flow: from the globals and parameters to the globals and the
/// returned value, by at most 16 cases of at most 64 rows and 64 auxiliaries. It holds of all that
/// the flow's exit holds of.
pub fn project<O: Oracle>(
    alloc: Global,
    program: &Program,
    proc: u32,
    flow: &Flow,
    oracle: &mut O,
    log: &mut Log,
) -> Result<Formula, WorkError>
    requires formed { IsWellFormed program.now }
    requires procedure { proc < length program.now.procs }
    requires flow { (p : Procedure) → IsProcOf program.now proc p
        → FitsFlow program.now p flow.now }
    ensures follows { (p : Procedure) → IsProcOf program.now proc p
        → Asks O.asking oracle log result
        (summary_from (ends_of program.now p) flow.now.exit.formula) }
    ensures known { (p : Procedure) → IsProcOf program.now proc p
        → IfOk result (IsKnown program.now p) }
    ensures met { FlowHolds program.now proc flow.now
        → IfOk result (SummaryIsMet program.now proc) }
{
    exit_summary(alloc, program, proc, &flow.exit.formula, oracle, log)
}

/// The same by the formula of the exit alone; an exit without one is one that no way leads to.
#[tactic(auto, using(posing::proofs::Following::following), unfolding(crate::specs::Summary::summary_from))]
pub fn exit_summary<O: Oracle>(
    alloc: Global,
    program: &Program,
    proc: u32,
    exit: &Option<Formula>,
    oracle: &mut O,
    log: &mut Log,
) -> Result<Formula, WorkError>
    requires formed { IsWellFormed program.now }
    requires procedure { proc < length program.now.procs }
    requires exit { (p : Procedure) → IsProcOf program.now proc p
        → FitsIf (width_of program.now p) exit.now }
    ensures follows { (p : Procedure) → IsProcOf program.now proc p
        → Asks O.asking oracle log result (summary_from (ends_of program.now p) exit.now) }
    ensures known { (p : Procedure) → IsProcOf program.now proc p
        → IfOk result (IsKnown program.now p) }
    ensures covers { (p : Procedure) → IsProcOf program.now proc p
        → IfOk result
        (λ f. Covers f
        (projection_of (entry_width program.now p) (exit_places (ends_of program.now p))
        (exit_formula (width_of program.now p) exit.now))) }
{
    let start = entry(alloc, program, proc)?;
    let end = vocabularies::exit(alloc, program, proc)?;
    let columns = columns_of(program, proc);
    let places = exit_places(alloc, program, proc)?;
    let mut lost = Items::new(alloc);
    let told = exit_projection(
        alloc,
        columns,
        start.columns(),
        places.as_slice(),
        exit,
        &mut lost,
    )?;
    log.add_losses(alloc, lost.as_slice())?;
    settled_and_fitted(alloc, &told, &start, &end, oracle, log)
}

/// What an exit's formula tells: the entry's columns past the first so many become auxiliaries, and
/// the posts at some of the exit's columns alone stay. An exit that no way leads to has no case.
fn exit_projection(
    alloc: Global,
    columns: u32,
    entry: u32,
    places: &[u32],
    exit: &Option<Formula>,
    lost: &mut Items<Loss>,
) -> Result<Formula, FormulaError>
    requires { IsToldFrom columns entry places.now exit.now }
    ensures made { IfOk result
        (λ told. told ≡ projection_of entry places.now (exit_formula columns exit.now)) }
    ensures noted { OnOk result
        (lost.new ≡ lost.old ++ losses_in_hiding entry (exit_formula columns exit.now)) }
{
    match exit {
        Some(f) => projection_of(alloc, entry, places, f, lost),
        None => {
            let nothing = Formula::from_cases(columns, columns, Items::new(alloc));
            projection_of(alloc, entry, places, &nothing, lost)
        }
    }
}

fn projection_of(
    alloc: Global,
    entry: u32,
    places: &[u32],
    f: &Formula,
    lost: &mut Items<Loss>,
) -> Result<Formula, FormulaError>
    requires { IsToldBy entry places.now f.now }
    ensures made { IfOk result (λ told. told ≡ projection_of entry places.now f.now) }
    ensures noted { OnOk result (lost.new ≡ lost.old ++ losses_in_hiding entry f.now) }
{
    let hidden = hidden(alloc, f, entry, lost)?;
    with_posts(alloc, &hidden, places)
}
