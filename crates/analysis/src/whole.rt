ghost use Rattle.std.specs.Prelude.{◌≡◌, List, IfOk};
ghost use Rattle.std.specs.List.{filter_map};
ghost use Rattle.syntax_tree.specs.WellFormed.{IsWellFormed};
ghost use Rattle.posing.specs.Follows.{Asks};
ghost use Rattle.context.specs.Claims.{AreEntries, AreFlows, EntriesHold, FlowsHold};
ghost use Rattle.context.specs.Entries.{entries_from};
ghost use Rattle.report.specs.Claims.{ClaimsAreMet, PointsMeetRows, ReportCovers};
ghost use Rattle.analysis.specs.declared.planning.Planned.{Planned as PlannedGroup};
ghost use Rattle.analysis.specs.Analysis.{found_report, report_by_plan, report_by_findings};
ghost use Rattle.analysis.specs.Apart.{apart};
ghost use Rattle.analysis.specs.Claims.{AreTheirPlaces, FitsFound, FitsFoundReport, FoundIsMet, FoundReportHolds, HasAll};
ghost use Rattle.analysis.specs.Plan.{IsPlan};

use crate::blocks::blocks_by;
use crate::found::{Found, findings_by_plan};
use crate::judging::judgements_on_all;
use crate::places::TextPlace;
use crate::planning::plan;
use context::entries;
use farkas_check::Oracle;
use items::Items;
use posing::{Log, Note, WorkError};
use proc_summary::Flow;
use report::Report;
use std::alloc::{AllocError, Global};
use std::mem;
use syntax_tree::Program;
use transition_formula::Formula;

/// A report, and what it was made by: the summaries and the flows of the procedures, and their
/// entries, in the order of the text.
#[derive(Drop)]
pub struct FoundReport {
    pub report: Report,
    pub known: Items<Option<Formula>>,
    pub flows: Items<Flow>,
    pub entries: Items<Option<Formula>>,
}

/// The report of a program, whose assertions stand at these places of its text. The log gains the
/// answers that were taken, in the order of their questions, and no notes: these stand in the
/// report.
#[tactic(auto, using(posing::proofs::Following::following), unfolding(crate::specs::Analysis::report_by_plan))]
pub fn analyse<O: Oracle>(
    alloc: Global,
    program: &Program,
    places: &[TextPlace],
    oracle: &mut O,
    log: &mut Log,
) -> Result<Report, WorkError>
    requires formed { IsWellFormed program.now }
    ensures follows { (plan : List PlannedGroup) → IsPlan program.now plan
        → Asks O.asking oracle log result (report_by_plan program.now places.now plan) }
    ensures planned { IfOk result (λ report. (plan : List PlannedGroup) × IsPlan program.now plan) }
    ensures kept { log.new.notes ≡ log.old.notes }
    ensures met { IfOk result (ClaimsAreMet program.now) }
    ensures covers { AreTheirPlaces program.now places.now
        → IfOk result (ReportCovers program.now) }
    ensures points { IfOk result PointsMeetRows }
{
    let plan = plan(alloc, program)?;
    let found = findings_by_plan(alloc, program, plan.as_slice(), oracle, log)?;
    report_by_findings(alloc, program, places, found, oracle, log)
}

/// The same by what is found of all procedures.
pub fn report_by_findings<O: Oracle>(
    alloc: Global,
    program: &Program,
    places: &[TextPlace],
    found: Found,
    oracle: &mut O,
    log: &mut Log,
) -> Result<Report, WorkError>
    requires formed { IsWellFormed program.now }
    requires found { FitsFound program.now found }
    requires all { HasAll program.now found }
    ensures follows { Asks O.asking oracle log result
        (report_by_findings program.now places.now found) }
    ensures met { FoundIsMet program.now found → IfOk result (ClaimsAreMet program.now) }
    ensures covers { AreTheirPlaces program.now places.now
        → IfOk result (ReportCovers program.now) }
    ensures points { IfOk result PointsMeetRows }
{
    let made = found_report(alloc, program, places, found, oracle, log)?;
    Ok(made.report)
}

/// The same report with what it was made by.
#[tactic(auto, using(posing::proofs::Following::following), unfolding(crate::specs::Analysis::found_report, crate::specs::Analysis::report_by))]
pub fn found_report<O: Oracle>(
    alloc: Global,
    program: &Program,
    places: &[TextPlace],
    found: Found,
    oracle: &mut O,
    log: &mut Log,
) -> Result<FoundReport, WorkError>
    requires formed { IsWellFormed program.now }
    requires found { FitsFound program.now found }
    requires all { HasAll program.now found }
    ensures follows { Asks O.asking oracle log result
        (found_report program.now places.now found) }
    ensures met { FoundIsMet program.now found
        → IfOk result (λ made. ClaimsAreMet program.now made.report) }
    ensures covers { AreTheirPlaces program.now places.now
        → IfOk result (λ made. ReportCovers program.now made.report) }
    ensures points { IfOk result (λ made. PointsMeetRows made.report) }
    ensures fits { IfOk result (FitsFoundReport program.now) }
    ensures holds { FoundIsMet program.now found → IfOk result (FoundReportHolds program.now) }
{
    let Found {
        known,
        flows,
        notes,
    } = found;
    let procs = blocks_by(alloc, program, known.as_slice(), notes.as_slice())?;
    let flows = flows_in(alloc, flows)?;
    let (entries, own) = entries_apart(alloc, program, flows.as_slice(), oracle, log)?;
    let judged = judgements_on_all(
        alloc,
        program,
        places,
        entries.as_slice(),
        flows.as_slice(),
        oracle,
        log,
    )?;
    let report = Report {
        procs,
        notes: own,
        judged,
    };
    Ok(FoundReport {
        report,
        known,
        flows,
        entries,
    })
}

/// The entries, and the notes of finding them. The log gains the answers, and no notes.
fn entries_apart<O: Oracle>(
    alloc: Global,
    program: &Program,
    flows: &[Flow],
    oracle: &mut O,
    log: &mut Log,
) -> Result<(Items<Option<Formula>>, Items<Note>), WorkError>
    requires formed { IsWellFormed program.now }
    requires flows { AreFlows program.now flows.now }
    ensures follows { Asks O.asking oracle log result (apart (entries_from program.now flows.now)) }
    ensures fits { IfOk result (λ made. AreEntries program.now made.0) }
    ensures holds { FlowsHold program.now flows.now
        → IfOk result (λ made. EntriesHold program.now made.0) }
{
    let others = mem::replace(&mut log.notes, Items::new(alloc));
    let result = entries(alloc, program, flows, oracle, log);
    let notes = mem::replace(&mut log.notes, others);
    Ok((result?, notes))
}

/// The flows that are found.
fn flows_in(alloc: Global, flows: Items<Option<Flow>>) -> Result<Items<Flow>, AllocError>
    ensures { IfOk result (λ all. all ≡ filter_map (λ flow. flow) flows) }
{
    let mut all = Items::new(alloc);
    for flow in flows {
        match flow {
            Some(flow) => all.push(flow)?,
            None => {}
        }
    }
    Ok(all)
}
