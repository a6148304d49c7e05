ghost use Rattle.std.specs.Prelude.{◌≡◌, ◌<◌, [], length, IfOk};
ghost use Rattle.syntax_tree.specs.WellFormed.{IsWellFormed};
ghost use Rattle.syntax_tree.specs.declared.program.Proc.{Proc as Procedure};
ghost use Rattle.posing.specs.Follows.{Asks};
ghost use Rattle.posing.specs.Logs.{Adds, loss_notes};
ghost use Rattle.posing.specs.Posing.{each};
ghost use Rattle.vocabularies.specs.Procs.{IsProcOf};
ghost use Rattle.leaf_cases.specs.Conditions.{AreKnown};
ghost use Rattle.proc_summary.specs.Claims.{FitsIf};
ghost use Rattle.newton_rounds.specs.Between.{AddsBase, AreBases, GoesBetween};
ghost use Rattle.newton_rounds.specs.Closure.{base_of, bases_of, pair_ends, with_base};
ghost use Rattle.newton_rounds.specs.Groups.{IsReadyGroup};
ghost use Rattle.newton_rounds.specs.Members.{members_of};
ghost use Rattle.newton_rounds.specs.Pairs.{base_from, losses_in_base};
ghost use Rattle.newton_rounds.specs.Shapes.{AreEnds};

use crate::ends::{PairEnds, pair_ends};
use crate::exits::exit_from;
use crate::group::GroupInRounds;
use crate::pairs::base_from;
use crate::tables::with_table;
use farkas_check::Oracle;
use items::Items;
use posing::{Log, WorkError};
use std::alloc::Global;
use syntax_tree::Program;
use transition_formula::{Formula, FormulaError};

/// What holds of the pairs of activations without a call of the group, for each of its procedures.
#[tactic(auto, using(posing::proofs::Following::following), unfolding(crate::specs::Closure::bases_of))]
pub(crate) fn bases_of<O: Oracle>(
    alloc: Global,
    group: GroupInRounds<'_>,
    oracle: &mut O,
    log: &mut Log,
) -> Result<Items<Formula>, WorkError>
    requires { IsReadyGroup group }
    ensures follows { Asks O.asking oracle log result
        (bases_of group.entry.program.now group.entry.procs.now group.entry.known.now) }
    ensures fits { IfOk result (AreBases group.entry.members.now) }
{
    let others = with_table(alloc, group.procs, &[], group.known)?;
    let known = others.as_slice();
    bases_by(alloc, GroupInRounds { known, ..group }, oracle, log)
}

fn bases_by<O: Oracle>(
    alloc: Global,
    group: GroupInRounds<'_>,
    oracle: &mut O,
    log: &mut Log,
) -> Result<Items<Formula>, WorkError>
    requires { IsReadyGroup group }
    ensures follows { Asks O.asking oracle log result
        (each (with_base group.entry.program.now group.entry.known.now) []
        (members_of group.entry.program.now group.entry.procs.now)) }
    ensures fits { IfOk result (AreBases group.entry.members.now) }
{
    let mut made = Items::new(alloc);
    for proc in group.procs {
        made = with_base(alloc, group, *proc, made, oracle, log)?;
    }
    Ok(made)
}

#[tactic(auto, using(posing::proofs::Following::following), unfolding(crate::specs::Closure::with_base))]
fn with_base<O: Oracle>(
    alloc: Global,
    group: GroupInRounds<'_>,
    proc: u32,
    made: Items<Formula>,
    oracle: &mut O,
    log: &mut Log,
) -> Result<Items<Formula>, WorkError>
    requires group { IsReadyGroup group }
    requires procedure { proc < length group.program.now.procs }
    ensures follows { (p : Procedure) → IsProcOf group.entry.program.now proc p
        → Asks O.asking oracle log result
        (with_base group.entry.program.now group.entry.known.now made p) }
    ensures fits { (p : Procedure) → IsProcOf group.entry.program.now proc p
        → IfOk result (AddsBase (pair_ends group.entry.program.now p) made) }
{
    let base = base_of(alloc, group.program, proc, group.known, oracle, log)?;
    let mut all = made;
    all.push(base)?;
    Ok(all)
}

/// One evaluation from the entry.
#[tactic(auto, using(posing::proofs::Following::following))]
fn base_of<O: Oracle>(
    alloc: Global,
    program: &Program,
    proc: u32,
    known: &[Option<Formula>],
    oracle: &mut O,
    log: &mut Log,
) -> Result<Formula, WorkError>
    requires formed { IsWellFormed program.now }
    requires procedure { proc < length program.now.procs }
    requires known { AreKnown program.now known.now }
    ensures follows { (p : Procedure) → IsProcOf program.now proc p
        → Asks O.asking oracle log result (base_of program.now known.now p) }
    ensures goes { (p : Procedure) → IsProcOf program.now proc p
        → IfOk result (GoesBetween 1000 (pair_ends program.now p).pair.columns 0) }
{
    let ends = pair_ends(alloc, program, proc)?;
    let exit = exit_from(alloc, program, proc, known, oracle, log)?;
    Ok(noted_base(alloc, &ends, &exit, log)?)
}

/// The same by the formula of the exit; losses are noted.
fn noted_base(
    alloc: Global,
    member: &PairEnds,
    exit: &Option<Formula>,
    log: &mut Log,
) -> Result<Formula, FormulaError>
    requires ends { AreEnds member.now }
    requires fits { FitsIf member.now.ends.full.columns exit.now }
    ensures noted { Adds (loss_notes (losses_in_base member.now exit.now)) log.old log.new result }
    ensures made { IfOk result (λ base. base ≡ base_from member.now exit.now) }
{
    let mut lost = Items::new(alloc);
    let base = base_from(alloc, member, exit, &mut lost)?;
    log.add_losses(alloc, lost.as_slice())?;
    Ok(base)
}
