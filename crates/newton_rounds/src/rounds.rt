ghost use Rattle.std.specs.Prelude.{◌≡◌, ◌<◌, ◌+◌, ◌^◌, [], length, map, IfOk};
ghost use Rattle.std.specs.List.{AllByRecursion, filter_map};
ghost use Rattle.syntax_tree.specs.WellFormed.{IsWellFormed};
ghost use Rattle.syntax_tree.specs.declared.program.Proc.{Proc as Procedure};
ghost use Rattle.posing.specs.Follows.{Asks};
ghost use Rattle.posing.specs.Logs.{Adds};
ghost use Rattle.posing.specs.Posing.{each};
ghost use Rattle.vocabularies.specs.Procs.{IsProcOf};
ghost use Rattle.leaf_cases.specs.Conditions.{AreKnown, IsKnown};
ghost use Rattle.newton_rounds.specs.Candidates.{dropped_notes, end_of_round, judgements_and, kept_row, last_round, members_with, no_judgements, round, some_note, table_of, unfolded_formula, with_judged, with_round};
ghost use Rattle.newton_rounds.specs.Closure.{pair_ends};
ghost use Rattle.newton_rounds.specs.Groups.{IsReadyGroup};
ghost use Rattle.newton_rounds.specs.Members.{members_of, with_table};
ghost use Rattle.newton_rounds.specs.Between.{AreCandidates, AreSummaries, IsFewer, IsRowOver};
ghost use Rattle.newton_rounds.specs.Shapes.{IsRefutable};

use crate::candidates::table_of;
use crate::dropping::{JudgedRow, dropped_notes, kept_rows};
use crate::exits::exit_from;
use crate::findings::{Judgements, RoundEnd};
use crate::group::GroupInRounds;
use crate::refuting::refutation;
use crate::tables::with_table;
use farkas_check::Oracle;
use items::Items;
use linear_terms::Row;
use posing::{Log, WorkError};
use proc_summary::exit_summary;
use std::alloc::{AllocError, Global};
use syntax_tree::Program;
use transition_formula::{Formula, FormulaError};

/// The end of the last round, after rounds until none drops a row.
pub(crate) fn last_round<O: Oracle>(
    alloc: Global,
    group: GroupInRounds<'_>,
    candidates: Items<Items<Row>>,
    oracle: &mut O,
    log: &mut Log,
) -> Result<RoundEnd, WorkError>
    requires group { IsReadyGroup group }
    requires candidates { AreCandidates group.members.now candidates }
    ensures follows { Asks O.asking oracle log result
        (last_round group.entry.program.now group.entry.procs.now group.entry.known.now
        candidates) }
    ensures over { IfOk result (λ end. AreCandidates group.entry.members.now end.candidates) }
    ensures fits { IfOk result (λ end. AreSummaries group.entry.members.now end.formulas) }
{
    let mut left = RoundEnd {
        candidates,
        formulas: Items::new(alloc),
    };
    let mut dropped = true;
    while dropped {
        let (next, more) = round(alloc, group, left.candidates.as_slice(), oracle, log)?;
        left = next;
        dropped = more;
    }
    Ok(left)
}

/// One round: all rows that are refuted are dropped together at its end. It tells whether any was.
#[tactic(auto, using(posing::proofs::Following::following), unfolding(crate::specs::Candidates::round))]
fn round<O: Oracle>(
    alloc: Global,
    group: GroupInRounds<'_>,
    candidates: &[Items<Row>],
    oracle: &mut O,
    log: &mut Log,
) -> Result<(RoundEnd, bool), WorkError>
    requires group { IsReadyGroup group }
    requires candidates { AreCandidates group.members.now candidates.now }
    ensures follows { Asks O.asking oracle log result
        (round group.entry.program.now group.entry.procs.now group.entry.known.now
        candidates.now) }
    ensures over { IfOk result (λ next. AreCandidates group.entry.members.now next.0.candidates) }
    ensures fewer { IfOk result (λ next. IsFewer candidates.now next) }
{
    let all = known_formulas_with(alloc, group, candidates)?;
    let known = all.as_slice();
    let group = GroupInRounds { known, ..group };
    let judged = judgements_in(alloc, group, candidates, oracle, log)?;
    Ok(round_end(alloc, judged, log)?)
}

/// The known formulas, with those of the candidates.
fn known_formulas_with(
    alloc: Global,
    group: GroupInRounds<'_>,
    candidates: &[Items<Row>],
) -> Result<Items<Option<Formula>>, FormulaError>
    requires group { IsReadyGroup group }
    requires candidates { AreCandidates group.members.now candidates.now }
    ensures { IfOk result
        (λ all. all
        ≡ with_table group.entry.procs.now (table_of group.entry.members.now candidates.now)
        group.entry.known.now) }
{
    let table = table_of(alloc, group.members, candidates)?;
    Ok(with_table(alloc, group.procs, table.as_slice(), group.known)?)
}

/// The rows that are left with the formulas by which they were judged, and whether any was dropped.
fn round_end(
    alloc: Global,
    judged: Judgements,
    log: &mut Log,
) -> Result<(RoundEnd, bool), AllocError>
    requires { length judged.rows < 2 ^ 32 }
    ensures noted { Adds (dropped_notes judged.rows) log.old log.new result }
    ensures exact { IfOk result
        (λ left. left ≡ (end_of_round judged, some_note (dropped_notes judged.rows))) }
{
    let (candidates, dropped) = rows_left(alloc, judged.rows.as_slice(), log)?;
    let formulas = judged.formulas;
    Ok((
        RoundEnd {
            candidates,
            formulas,
        },
        dropped,
    ))
}

/// The rows that are left, and whether any was dropped; each that was is noted.
fn rows_left(
    alloc: Global,
    judged: &[Items<JudgedRow>],
    log: &mut Log,
) -> Result<(Items<Items<Row>>, bool), AllocError>
    requires { length judged.now < 2 ^ 32 }
    ensures noted { Adds (dropped_notes judged.now) log.old log.new result }
    ensures exact { IfOk result
        (λ left. left
        ≡ (map (filter_map kept_row) judged.now, some_note (dropped_notes judged.now))) }
{
    let notes = dropped_notes(alloc, judged)?;
    let dropped = !notes.is_empty();
    let kept = kept_rows(alloc, judged)?;
    log.add_notes(notes)?;
    Ok((kept, dropped))
}

/// The rows of all procedures with what refutes each, and the formulas by which they are judged.
#[tactic(auto, using(posing::proofs::Following::following))]
fn judgements_in<O: Oracle>(
    alloc: Global,
    group: GroupInRounds<'_>,
    candidates: &[Items<Row>],
    oracle: &mut O,
    log: &mut Log,
) -> Result<Judgements, WorkError>
    requires group { IsReadyGroup group }
    requires candidates { AreCandidates group.members.now candidates.now }
    ensures { Asks O.asking oracle log result
        (each (with_round group.entry.program.now group.entry.known.now) no_judgements
        (members_with (members_of group.entry.program.now group.entry.procs.now)
        candidates.now)) }
{
    let mut made = no_judgements(alloc);
    for (place, rows) in candidates.iter().enumerate() {
        let proc = group.procs[place];
        made = with_round(alloc, group, made, proc, rows.as_slice(), oracle, log)?;
    }
    Ok(made)
}

fn no_judgements(alloc: Global) -> Judgements
    ensures { result ≡ no_judgements }
{
    Judgements {
        rows: Items::new(alloc),
        formulas: Items::new(alloc),
    }
}

/// The rows of one procedure with what refutes each, and the formula by which they are judged.
#[tactic(auto, using(posing::proofs::Following::following), unfolding(crate::specs::Candidates::with_round))]
fn with_round<O: Oracle>(
    alloc: Global,
    group: GroupInRounds<'_>,
    made: Judgements,
    proc: u32,
    rows: &[Row],
    oracle: &mut O,
    log: &mut Log,
) -> Result<Judgements, WorkError>
    requires group { IsReadyGroup group }
    requires procedure { proc < length group.program.now.procs }
    requires rows { (p : Procedure) → IsProcOf group.program.now proc p
        → AllByRecursion (IsRowOver (pair_ends group.program.now p).pair.columns) rows.now }
    ensures { (p : Procedure) → IsProcOf group.entry.program.now proc p
        → Asks O.asking oracle log result
        (with_round group.entry.program.now group.entry.known.now made (p, rows.now)) }
{
    let f = unfolded_formula(alloc, group.program, proc, group.known, oracle, log)?;
    let judged = judgements_by(alloc, &f, rows, oracle, log)?;
    Ok(judgements_and(made, f, judged)?)
}

fn judgements_and(
    made: Judgements,
    f: Formula,
    judged: Items<JudgedRow>,
) -> Result<Judgements, AllocError>
    ensures { IfOk result (λ all. all ≡ judgements_and made f judged) }
{
    let mut all = made;
    all.rows.push(judged)?;
    all.formulas.push(f)?;
    Ok(all)
}

#[tactic(auto, using(posing::proofs::Following::following))]
fn judgements_by<O: Oracle>(
    alloc: Global,
    f: &Formula,
    rows: &[Row],
    oracle: &mut O,
    log: &mut Log,
) -> Result<Items<JudgedRow>, WorkError>
    requires { AllByRecursion (IsRefutable f.now) rows.now }
    ensures { Asks O.asking oracle log result (each (with_judged f.now) [] rows.now) }
{
    let mut judged = Items::new(alloc);
    for row in rows {
        judged = with_judged(alloc, f, judged, row, oracle, log)?;
    }
    Ok(judged)
}

#[tactic(auto, using(posing::proofs::Following::following), unfolding(crate::specs::Candidates::with_judged))]
fn with_judged<O: Oracle>(
    alloc: Global,
    f: &Formula,
    made: Items<JudgedRow>,
    row: &Row,
    oracle: &mut O,
    log: &mut Log,
) -> Result<Items<JudgedRow>, WorkError>
    requires { IsRefutable f.now row.now }
    ensures { Asks O.asking oracle log result (with_judged f.now made row.now) }
{
    let copy = row.clone()?;
    let by = refutation(alloc, f, row, oracle, log)?;
    let mut all = made;
    all.push(JudgedRow { row: copy, by })?;
    Ok(all)
}

/// The formula of a procedure as of one that is not recursive, where calls of the group are read by
/// the candidates.
#[tactic(auto, using(posing::proofs::Following::following))]
fn unfolded_formula<O: Oracle>(
    alloc: Global,
    program: &Program,
    proc: u32,
    known: &[Option<Formula>],
    oracle: &mut O,
    log: &mut Log,
) -> Result<Formula, WorkError>
    requires formed { IsWellFormed program.now }
    requires procedure { proc < length program.now.procs }
    requires known { AreKnown program.now known.now }
    ensures follows { (p : Procedure) → IsProcOf program.now proc p
        → Asks O.asking oracle log result (unfolded_formula program.now known.now p) }
    ensures known { (p : Procedure) → IsProcOf program.now proc p
        → IfOk result (IsKnown program.now p) }
{
    let exit = exit_from(alloc, program, proc, known, oracle, log)?;
    exit_summary(alloc, program, proc, &exit, oracle, log)
}
