ghost use Rattle.std.specs.Prelude.{◌≡◌, IfOk};
ghost use Rattle.std.specs.List.{list_all};
ghost use Rattle.syntax_tree.specs.WellFormed.{IsWellFormed};
ghost use Rattle.posing.specs.Follows.{Asks};
ghost use Rattle.report.specs.Claims.{PointsMeetRows, ReportCovers};
ghost use Rattle.report.specs.Text.{is_proved};
ghost use Rattle.analysis.specs.Claims.{AreTheirPlaces};
ghost use Rattle.analysis.specs.Plan.{IsPlan};
ghost use Rattle.point_search.specs.declared.found.FoundTable.{FoundTable as Found};
ghost use Rattle.point_reports.specs.Claims.{AreAllMet};
ghost use Rattle.point_reports.specs.Parts.{IsFoundProof, IsJudgedRound, IsKnownAtPoints, KeepsReport};
ghost use Rattle.point_reports.specs.Proof.{points_if_open, proof_by_plan, with_points, with_round, without_points, without_round};

use crate::again::{JudgedRound, is_proved, judgements_again};
use crate::blocks::rows_of_table;
use crate::rounds::{PointGround, RoundsTold, rounds_apart};
use analysis::{FoundReport, Planned, TextPlace, findings_by_plan, found_report, standing_of};
use farkas_check::Oracle;
use finder::Finder;
use items::Items;
use point_rounds::all_heads;
use posing::{Log, Note, WorkError};
use report::{PointsTold, Report};
use std::alloc::{AllocError, Global};
use syntax_tree::Program;

/// A report, and what is told of points: the rows that hold at points of its program and where its
/// procedures return; none where every assertion is proved without them, or where the search for
/// them was given up.
#[derive(Drop)]
pub struct PointReport {
    pub report: Report,
    pub points: PointsTold,
}

/// The report of a program by its plan, whose assertions stand at these places of its text, with what
/// holds at points. The log gains the answers that were taken, in the order of their questions, and no notes:
/// these stand in the report. What is found for points is believed of nothing: any table of rows
/// is tested by rounds of questions, and what they leave is told. The searcher answers what the
/// search for a table asks. No claim depends on it; which rows are found does, and so does how soon
/// the search ends, since what the searcher and those beside it were asked before counts.
///
/// # Errors
///
/// A question that the oracle refused, or want of memory.
#[tactic(auto, using(posing::proofs::Following::following), unfolding(crate::specs::Proof::proof_by_plan))]
pub fn prove<O: Oracle>(
    alloc: Global,
    program: &Program,
    places: &[TextPlace],
    plan: &[Planned],
    oracle: &mut O,
    searcher: Finder,
    log: &mut Log,
) -> Result<PointReport, WorkError>
    requires formed { IsWellFormed program.now }
    requires plan { IsPlan program.now plan.now }
    ensures follows { (found : Found) × Asks O.asking oracle log result
        (proof_by_plan program.now places.now plan.now found) }
    ensures kept { log.new.notes ≡ log.old.notes }
    ensures met { IfOk result (AreAllMet program.now) }
    ensures covers { AreTheirPlaces program.now places.now
        → IfOk result (λ made. ReportCovers program.now made.report) }
    ensures points { IfOk result (λ made. PointsMeetRows made.report) }
{
    let found = findings_by_plan(alloc, program, plan, oracle, log)?;
    let made = found_report(alloc, program, places, found, oracle, log)?;
    points_if_open(alloc, program, made, oracle, searcher, log)
}

/// The report with what holds at points where some assertion is not proved, else as it is.
fn points_if_open<O: Oracle>(
    alloc: Global,
    program: &Program,
    made: FoundReport,
    oracle: &mut O,
    searcher: Finder,
    log: &mut Log,
) -> Result<PointReport, WorkError>
    requires formed { IsWellFormed program.now }
    requires made { IsFoundProof program.now made }
    ensures follows { (found : Found) × Asks O.asking oracle log result
        (points_if_open program.now made found) }
    ensures keeps { IfOk result (KeepsReport made) }
    ensures met { IfOk result (AreAllMet program.now) }
    ensures points { IfOk result (λ made. PointsMeetRows made.report) }
{
    if are_all_proved(&made.report) {
        return Ok(without_points(alloc, made));
    }
    with_points(alloc, program, made, oracle, searcher, log)
}

fn are_all_proved(report: &Report) -> bool
    ensures { result ≡ list_all is_proved report.now.judged }
{
    report.judged.as_slice().iter().all(|one| is_proved(one))
}

fn without_points(alloc: Global, made: FoundReport) -> PointReport
    ensures { result ≡ without_points made }
{
    PointReport {
        report: made.report,
        points: PointsTold {
            is_cut: false,
            rows: Items::new(alloc),
        },
    }
}

/// The report whose assertions are judged once more from points, with the rows that hold there.
fn with_points<O: Oracle>(
    alloc: Global,
    program: &Program,
    made: FoundReport,
    oracle: &mut O,
    searcher: Finder,
    log: &mut Log,
) -> Result<PointReport, WorkError>
    requires formed { IsWellFormed program.now }
    requires made { IsFoundProof program.now made }
    ensures follows { (found : Found) × Asks O.asking oracle log result
        (with_points program.now made found) }
    ensures keeps { IfOk result (KeepsReport made) }
    ensures met { IfOk result (AreAllMet program.now) }
    ensures points { IfOk result (λ made. PointsMeetRows made.report) }
{
    let standing = standing_of(alloc, program)?;
    let heads = all_heads(alloc, standing.graphs.as_slice())?;
    let ground = PointGround {
        program,
        standing: &standing,
        heads: heads.as_slice(),
        made: &made,
    };
    let (told, own) = rounds_apart(alloc, ground, oracle, searcher, log)?;
    let RoundsTold { round, is_cut } = told;
    match round {
        Some(round) => {
            let left = JudgedRound {
                program,
                standing: &standing,
                heads: heads.as_slice(),
                round: &round,
            };
            with_round(alloc, left, made, is_cut, own, oracle, log)
        }
        None => {
            let whole = without_round(alloc, made, is_cut, own)?;
            Ok(whole)
        }
    }
}

/// The report with further notes behind its own, and without rows at points.
fn without_round(
    alloc: Global,
    made: FoundReport,
    is_cut: bool,
    more: Items<Note>,
) -> Result<PointReport, AllocError>
    ensures { IfOk result (λ whole. whole ≡ without_round made is_cut more) }
{
    let Report {
        procs,
        mut notes,
        judged,
    } = made.report;
    notes.append(more)?;
    Ok(PointReport {
        report: Report {
            procs,
            notes,
            judged,
        },
        points: PointsTold {
            is_cut,
            rows: Items::new(alloc),
        },
    })
}

/// The report whose assertions are judged once more by what a round leaves, with the rows of its
/// table.
fn with_round<O: Oracle>(
    alloc: Global,
    left: JudgedRound<'_>,
    made: FoundReport,
    is_cut: bool,
    own: Items<Note>,
    oracle: &mut O,
    log: &mut Log,
) -> Result<PointReport, WorkError>
    requires left { IsJudgedRound left }
    requires made { IsFoundProof left.program.now made }
    requires known { IsKnownAtPoints left.program.now left.round.now }
    ensures follows { Asks O.asking oracle log result
        (with_round left.entry.program.now made left.entry.round.now is_cut own) }
    ensures keeps { IfOk result (KeepsReport made) }
    ensures met { IfOk result (AreAllMet left.entry.program.now) }
    ensures points { IfOk result (λ made. PointsMeetRows made.report) }
{
    let Report {
        procs,
        mut notes,
        judged,
    } = made.report;
    let judged = judgements_again(alloc, left, judged.as_slice(), oracle, log)?;
    notes.append(own)?;
    let rows = rows_of_table(alloc, left.program, left.heads, &left.round.table)?;
    Ok(PointReport {
        report: Report {
            procs,
            notes,
            judged,
        },
        points: PointsTold { is_cut, rows },
    })
}
