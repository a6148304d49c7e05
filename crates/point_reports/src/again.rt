ghost use Rattle.std.specs.Prelude.{◌≡◌, ◌++◌, ◌∷◌, [], List, Option, Some, slice_get, true, IfOk};
ghost use Rattle.execution.specs.Execution.{Fails};
ghost use Rattle.flow_graph.specs.FlowGraph.{CheckPlace, graph_of};
ghost use Rattle.posing.specs.Follows.{Asks};
ghost use Rattle.report.specs.Text.{is_proved};
ghost use Rattle.analysis.specs.Apart.{apart};
ghost use Rattle.analysis.specs.Claims.{IsCheckOf};
ghost use Rattle.context.specs.SecondQuestions.{proved_if};
ghost use Rattle.point_verdicts.specs.Exclusions.{exclusion_of};
ghost use Rattle.point_reports.specs.Again.{judgement_after, judgement_again, judgement_by, judgements_again, with_judgement};
ghost use Rattle.point_reports.specs.Parts.{AddsAgain, AreAgain, IsAgain, IsJudgedRound, IsKnownAtPoints};

use crate::numbers::next_number;
use analysis::{CheckAt, Standing, check_with};
use farkas_check::Oracle;
use items::Items;
use point_rounds::PointRound;
use point_verdicts::{PointAssertion, is_excluded};
use posing::{Log, Note, WorkError};
use report::{Judged, Verdict};
use std::alloc::{AllocError, Global};
use std::mem;
use syntax_tree::Program;

/// A program with where its assertions stand, the heads of its procedures, and what the last round
/// left.
#[derive(Clone, Copy)]
pub(crate) struct JudgedRound<'a> {
    pub(crate) program: &'a Program,
    pub(crate) standing: &'a Standing,
    pub(crate) heads: &'a [Items<u32>],
    pub(crate) round: &'a PointRound,
}

/// The judgements on all assertions, in the order of the text; each that is not proved is judged
/// once more.
#[tactic(auto, unfolding(crate::specs::Again::judgements_again))]
pub(crate) fn judgements_again<O: Oracle>(
    alloc: Global,
    left: JudgedRound<'_>,
    judged: &[Judged],
    oracle: &mut O,
    log: &mut Log,
) -> Result<Items<Judged>, WorkError>
    requires { IsJudgedRound left }
    ensures follows { Asks O.asking oracle log result
        (judgements_again left.entry.program.now left.entry.round.now judged.now) }
    ensures again { IfOk result
        (AreAgain left.entry.program.now left.entry.round.now 1 judged.now) }
{
    let mut made = Items::new(alloc);
    let mut number = 1;
    for one in judged {
        made = with_judgement(alloc, left, made, number, one, oracle, log)?;
        number = next_number(number)?;
    }
    Ok(made)
}

/// The judgements, and behind them that on the assertion of a number.
#[tactic(auto, using(posing::proofs::Following::following), unfolding(crate::specs::Again::with_judgement))]
fn with_judgement<O: Oracle>(
    alloc: Global,
    left: JudgedRound<'_>,
    made: Items<Judged>,
    number: u32,
    one: &Judged,
    oracle: &mut O,
    log: &mut Log,
) -> Result<Items<Judged>, WorkError>
    requires { IsJudgedRound left }
    ensures follows { Asks O.asking oracle log result
        (with_judgement left.entry.program.now left.entry.round.now made (number, one.now)) }
    ensures adds { IfOk result
        (AddsAgain left.entry.program.now left.entry.round.now number one.now made) }
{
    let judged = judgement_again(alloc, left, number, one, oracle, log)?;
    let mut all = made;
    all.push(judged)?;
    Ok(all)
}

/// The judgement on the assertion of a number; one that is proved stays as it is.
fn judgement_again<O: Oracle>(
    alloc: Global,
    left: JudgedRound<'_>,
    number: u32,
    one: &Judged,
    oracle: &mut O,
    log: &mut Log,
) -> Result<Judged, WorkError>
    requires { IsJudgedRound left }
    ensures follows { Asks O.asking oracle log result
        (judgement_again left.entry.program.now left.entry.round.now number one.now) }
    ensures again { IfOk result
        (IsAgain left.entry.program.now left.entry.round.now number one.now) }
{
    if is_proved(one) {
        let same = copy_of(one)?;
        return Ok(same);
    }
    match check_with(number, left.standing.checks.as_slice()) {
        Some(at) => judgement_by(alloc, left, at, one, oracle, log),
        None => Ok(copy_of(one)?),
    }
}

/// Whether the verdict is that no execution fails.
pub(crate) fn is_proved(judged: &Judged) -> bool
    ensures { result ≡ is_proved judged.now }
{
    match &judged.verdict {
        Verdict::Proved => true,
        Verdict::Unproved { .. } | Verdict::UnprovedLimit { .. } => false,
    }
}

/// The judgement on an assertion, by where it stands.
fn judgement_by<O: Oracle>(
    alloc: Global,
    left: JudgedRound<'_>,
    at: CheckAt,
    one: &Judged,
    oracle: &mut O,
    log: &mut Log,
) -> Result<Judged, WorkError>
    requires left { IsJudgedRound left }
    requires at { IsCheckOf left.program.now at }
    ensures follows { Asks O.asking oracle log result
        (judgement_by left.entry.program.now left.entry.round.now one.now at
        (slice_get (graph_of left.entry.program.now at.proc).checks at.check)) }
    ensures again { IfOk result
        (IsAgain left.entry.program.now left.entry.round.now at.number one.now) }
{
    let (excluded, notes) = exclusion_apart(alloc, left, at, oracle, log)?;
    let after = judgement_after(one, excluded, notes)?;
    Ok(after)
}

/// Whether an assertion is excluded, and the notes of finding that. The log gains the answers, and
/// no notes.
fn exclusion_apart<O: Oracle>(
    alloc: Global,
    left: JudgedRound<'_>,
    at: CheckAt,
    oracle: &mut O,
    log: &mut Log,
) -> Result<(bool, Items<Note>), WorkError>
    requires left { IsJudgedRound left }
    requires at { IsCheckOf left.program.now at }
    ensures follows { (check : CheckPlace)
        → slice_get (graph_of left.entry.program.now at.proc).checks at.check ≡ Some check
        → Asks O.asking oracle log result
        (apart (exclusion_of left.entry.program.now at.proc check.cond at.check
        left.entry.round.now.steps left.entry.round.now.table)) }
    ensures sound { IsKnownAtPoints left.entry.program.now left.entry.round.now
        → IfOk result
        (λ found. found.0 ≡ true → ¬ Fails left.entry.program.now at.number) }
{
    let graphs = left.standing.graphs.as_slice();
    let assertion = PointAssertion {
        program: left.program,
        proc: at.proc,
        graph: &graphs[at.proc as usize],
        heads: left.heads[at.proc as usize].as_slice(),
        check: at.check,
        round: left.round,
    };
    let others = mem::replace(&mut log.notes, Items::new(alloc));
    let result = is_excluded(alloc, assertion, oracle, log);
    let notes = mem::replace(&mut log.notes, others);
    Ok((result?, notes))
}

/// A judgement, proved where its assertion is excluded, with the notes of finding that behind its
/// own.
fn judgement_after(one: &Judged, excluded: bool, notes: Items<Note>) -> Result<Judged, AllocError>
    ensures { IfOk result (λ after. after ≡ judgement_after one.now (excluded, notes)) }
{
    let Judged {
        at,
        line,
        column,
        named,
        shown,
        verdict,
        notes: own,
    } = copy_of(one)?;
    let mut all = own;
    all.append(notes)?;
    Ok(Judged {
        at,
        line,
        column,
        named,
        shown,
        verdict: proved_if(excluded, verdict),
        notes: all,
    })
}

fn proved_if(excluded: bool, verdict: Verdict) -> Verdict
    ensures { result ≡ proved_if excluded verdict }
{
    if excluded { Verdict::Proved } else { verdict }
}

fn copy_of(one: &Judged) -> Result<Judged, AllocError>
    ensures { IfOk result (λ copy. copy ≡ one.now) }
{
    let named = one.named.clone()?;
    let shown = one.shown.clone()?;
    let verdict = verdict_copy(&one.verdict)?;
    let notes = one.notes.clone()?;
    Ok(Judged {
        at: one.at,
        line: one.line,
        column: one.column,
        named,
        shown,
        verdict,
        notes,
    })
}

fn verdict_copy(verdict: &Verdict) -> Result<Verdict, AllocError>
    ensures { IfOk result (λ copy. copy ≡ verdict.now) }
{
    match verdict {
        Verdict::Proved => Ok(Verdict::Proved),
        Verdict::Unproved { case, point } => {
            let case = case.clone()?;
            let point = point.clone()?;
            Ok(Verdict::Unproved { case, point })
        }
        Verdict::UnprovedLimit { case, limit } => {
            let case = case.clone()?;
            Ok(Verdict::UnprovedLimit {
                case,
                limit: *limit,
            })
        }
    }
}
