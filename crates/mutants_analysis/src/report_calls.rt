ghost use Rattle.std.specs.Prelude.{◌≡◌, ◌-◌, List, length, IfOk, IsUtf8};
ghost use Rattle.syntax_tree.specs.WellFormed.{IsWellFormed};
ghost use Rattle.posing.specs.Follows.{Asks};
ghost use Rattle.report.specs.Claims.{ClaimsAreMet, PointsMeetRows, ReportCovers};
ghost use Rattle.report.specs.Text.{proved_count, text_of};
ghost use Rattle.analysis.specs.declared.planning.Planned.{Planned as PlannedGroup};
ghost use Rattle.analysis.specs.Analysis.{report_by_plan};
ghost use Rattle.analysis.specs.Claims.{AreTheirPlaces};
ghost use Rattle.analysis.specs.Plan.{IsPlan};

use analysis::{Planned, TextPlace};
use farkas_check::Oracle;
use items::Items;
use posing::{Log, WorkError};
use report::Report;
use std::alloc::{AllocError, Global};
use syntax_tree::Program;
use transition_formula::FormulaError;

/// The groups of a program in the order in which they are summed up.
pub fn plan(alloc: Global, program: &Program) -> Result<Items<Planned>, FormulaError>
    requires { IsWellFormed program.now }
    ensures { IfOk result (IsPlan program.now) }
{
    analysis::plan(alloc, program)
}

/// The report of a program.
pub fn analyse<O: Oracle>(
    alloc: Global,
    program: &Program,
    places: &[TextPlace],
    oracle: &mut O,
    log: &mut Log,
) -> Result<Report, WorkError>
    requires formed { IsWellFormed program.now }
    ensures follows { (plan : List PlannedGroup) → IsPlan program.now plan
        → Asks O.asking oracle log result (report_by_plan program.now places.now plan) }
    ensures planned { IfOk result (λ report. (plan : List PlannedGroup) × IsPlan program.now plan) }
    ensures kept { log.new.notes ≡ log.old.notes }
    ensures met { IfOk result (ClaimsAreMet program.now) }
    ensures covers { AreTheirPlaces program.now places.now
        → IfOk result (ReportCovers program.now) }
    ensures points { IfOk result PointsMeetRows }
{
    analysis::analyse(alloc, program, places, oracle, log)
}

/// How many assertions are not proved.
pub fn unproved_assertions(report: &Report) -> usize
    ensures { result ≡ length report.now.judged - proved_count report.now.judged }
{
    report::unproved_assertions(report)
}

/// The text of a report.
pub fn print(alloc: Global, report: &Report) -> Result<Vec<u8>, AllocError>
    ensures bytes { IfOk result (λ text. text.items ≡ text_of report.now) }
    ensures utf8 { IfOk result (λ text. IsUtf8 text.items) }
{
    report::print(alloc, report)
}
