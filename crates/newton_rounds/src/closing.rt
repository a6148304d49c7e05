ghost use Rattle.std.specs.Prelude.{◌≡◌, ◌<◌, ◌≤◌, [], All, length, IfOk};
ghost use Rattle.std.specs.List.{AllByRecursion};
ghost use Rattle.syntax_tree.specs.WellFormed.{IsWellFormed};
ghost use Rattle.posing.specs.Follows.{Asks};
ghost use Rattle.posing.specs.Posing.{each};
ghost use Rattle.leaf_cases.specs.Conditions.{AreKnown};
ghost use Rattle.leaf_cases.specs.Summaries.{AreMet};
ghost use Rattle.newton_rounds.specs.Claims.{AreKnownMembers, AreMetMembers, TellsLinear};
ghost use Rattle.newton_rounds.specs.Candidates.{summaries_by_round};
ghost use Rattle.newton_rounds.specs.Close.{closure_by_rounds, group_closure, pairs_of, rounds_after, rounds_over, with_candidate};
ghost use Rattle.newton_rounds.specs.Groups.{IsReadyGroup};
ghost use Rattle.newton_rounds.specs.Laws.{KnowsOthers};
ghost use Rattle.newton_rounds.specs.Between.{AreBases, AreCandidates, AreSummaries, FitTable, IsMember, IsSummary};

use crate::bases::bases_of;
use crate::candidates::{candidate_of, table_of};
use crate::closure::closure_of;
use crate::ends::{PairEnds, ends_of_members};
use crate::findings::RoundEnd;
use crate::group::GroupInRounds;
use crate::rounds::last_round;
use farkas_check::Oracle;
use items::Items;
use linear_terms::Row;
use phases::has_phases;
use posing::{Log, WorkError};
use std::alloc::Global;
use syntax_tree::Program;
use transition_formula::{Formula, FormulaError};

/// The summaries of a recursive group, in the order of its procedures. `linear` says whether no
/// call of the group can follow another in one activation. Where the known formulas are met and
/// each other callee is known, each summary is met.
pub fn close<O: Oracle>(
    alloc: Global,
    program: &Program,
    procs: &[u32],
    known: &[Option<Formula>],
    linear: bool,
    oracle: &mut O,
    log: &mut Log,
) -> Result<Items<Formula>, WorkError>
    requires formed { IsWellFormed program.now }
    requires there { All (λ proc. proc < length program.now.procs) procs.now }
    requires few { length procs.now ≤ length program.now.procs }
    requires known { AreKnown program.now known.now }
    requires linear { TellsLinear program.now procs.now linear }
    ensures follows { Asks O.asking oracle log result
        (group_closure linear program.now procs.now known.now) }
    ensures known { IfOk result (AreKnownMembers program.now procs.now) }
    ensures met { AreMet program.now known.now → KnowsOthers program.now procs.now known.now
        → IfOk result (AreMetMembers program.now procs.now) }
{
    let members = ends_of_members(alloc, program, procs)?;
    let group = GroupInRounds {
        program,
        procs,
        members: members.as_slice(),
        known,
    };
    group_closure(alloc, group, linear, oracle, log)
}

/// The same, of which it is not yet said that the summaries are met.
#[tactic(auto, using(posing::proofs::Following::following), unfolding(crate::specs::Close::group_closure))]
fn group_closure<O: Oracle>(
    alloc: Global,
    group: GroupInRounds<'_>,
    linear: bool,
    oracle: &mut O,
    log: &mut Log,
) -> Result<Items<Formula>, WorkError>
    requires { IsReadyGroup group }
    ensures follows { Asks O.asking oracle log result
        (group_closure linear group.entry.program.now group.entry.procs.now
        group.entry.known.now) }
    ensures known { IfOk result
        (AreKnownMembers group.entry.program.now group.entry.procs.now) }
{
    let bases = bases_of(alloc, group, oracle, log)?;
    let bases = bases.as_slice();
    if linear {
        closure_of(alloc, group, bases, &[], oracle, log)
    } else {
        closure_by_rounds(alloc, group, bases, oracle, log)
    }
}

/// Two closures, the candidates of the second, and what the last round on these leaves.
#[tactic(auto, using(posing::proofs::Following::following), unfolding(crate::specs::Close::closure_by_rounds))]
fn closure_by_rounds<O: Oracle>(
    alloc: Global,
    group: GroupInRounds<'_>,
    bases: &[Formula],
    oracle: &mut O,
    log: &mut Log,
) -> Result<Items<Formula>, WorkError>
    requires group { IsReadyGroup group }
    requires bases { AreBases group.members.now bases.now }
    ensures follows { Asks O.asking oracle log result
        (closure_by_rounds group.entry.program.now group.entry.procs.now group.entry.known.now
        bases.now) }
    ensures fits { IfOk result (AreSummaries group.entry.members.now) }
{
    let first = closure_of(alloc, group, bases, &[], oracle, log)?;
    rounds_after(alloc, group, bases, first.as_slice(), oracle, log)
}

/// What the last round on the candidates of the closure of a table leaves.
#[tactic(auto, using(posing::proofs::Following::following), unfolding(crate::specs::Close::rounds_after))]
fn rounds_after<O: Oracle>(
    alloc: Global,
    group: GroupInRounds<'_>,
    bases: &[Formula],
    table: &[Formula],
    oracle: &mut O,
    log: &mut Log,
) -> Result<Items<Formula>, WorkError>
    requires group { IsReadyGroup group }
    requires bases { AreBases group.members.now bases.now }
    requires table { FitTable group.program.now group.procs.now table.now }
    ensures follows { Asks O.asking oracle log result
        (rounds_after group.entry.program.now group.entry.procs.now group.entry.known.now bases.now
        table.now) }
    ensures fits { IfOk result (AreSummaries group.entry.members.now) }
{
    let second = closure_of(alloc, group, bases, table, oracle, log)?;
    rounds_over(alloc, group, second.as_slice(), oracle, log)
}

/// What the last round on the candidates of a table leaves.
#[tactic(auto, using(posing::proofs::Following::following), unfolding(crate::specs::Close::rounds_over))]
fn rounds_over<O: Oracle>(
    alloc: Global,
    group: GroupInRounds<'_>,
    table: &[Formula],
    oracle: &mut O,
    log: &mut Log,
) -> Result<Items<Formula>, WorkError>
    requires group { IsReadyGroup group }
    requires table { AreSummaries group.members.now table.now }
    ensures follows { Asks O.asking oracle log result
        (rounds_over group.entry.program.now group.entry.procs.now group.entry.known.now
        table.now) }
    ensures fits { IfOk result (AreSummaries group.entry.members.now) }
{
    let candidates = candidates_of(alloc, group.members, table, oracle, log)?;
    let end = last_round(alloc, group, candidates, oracle, log)?;
    Ok(summaries_by_round(alloc, group.program.rule, group.members, end)?)
}

/// Under a rule with phases the formulas that the last round made, else the candidates as formulas.
fn summaries_by_round(
    alloc: Global,
    rule: u32,
    members: &[PairEnds],
    end: RoundEnd,
) -> Result<Items<Formula>, FormulaError>
    requires members { AllByRecursion IsMember members.now }
    requires candidates { AreCandidates members.now end.candidates }
    ensures { IfOk result (λ table. table ≡ summaries_by_round rule members.now end) }
{
    if has_phases(rule) {
        Ok(end.formulas)
    } else {
        table_of(alloc, members, end.candidates.as_slice())
    }
}

/// The candidate of each procedure, by its formula.
#[tactic(auto, using(posing::proofs::Following::following))]
fn candidates_of<O: Oracle>(
    alloc: Global,
    members: &[PairEnds],
    table: &[Formula],
    oracle: &mut O,
    log: &mut Log,
) -> Result<Items<Items<Row>>, WorkError>
    requires members { AllByRecursion IsMember members.now }
    requires table { AreSummaries members.now table.now }
    ensures follows { Asks O.asking oracle log result
        (each with_candidate [] (pairs_of members.now table.now)) }
    ensures over { IfOk result (AreCandidates members.now) }
{
    let mut made = Items::new(alloc);
    for (place, member) in members.iter().enumerate() {
        made = with_candidate(alloc, made, member, &table[place], oracle, log)?;
    }
    Ok(made)
}

#[tactic(auto, using(posing::proofs::Following::following), unfolding(crate::specs::Close::with_candidate))]
fn with_candidate<O: Oracle>(
    alloc: Global,
    made: Items<Items<Row>>,
    member: &PairEnds,
    f: &Formula,
    oracle: &mut O,
    log: &mut Log,
) -> Result<Items<Items<Row>>, WorkError>
    requires member { IsMember member.now }
    requires summary { IsSummary member.now f.now }
    ensures { Asks O.asking oracle log result (with_candidate made (member.now, f.now)) }
{
    let rows = candidate_of(alloc, member, f, oracle, log)?;
    let mut all = made;
    all.push(rows)?;
    Ok(all)
}
