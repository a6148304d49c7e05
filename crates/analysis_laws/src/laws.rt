//! Each law is the contract of a function that does nothing.
ghost use Rattle.analysis_laws.specs.Laws.{FoundIsWhole, PartsAreMet, ReportedPointsMeetRows, ReportedSummariesHold, ReportsCover, UnreachedNeverFail, UnreachedStandNowhere};

/// An assertion that is told without a question stands in no graph, and never fails.
pub fn unreached_checks_never_fail()
    ensures nowhere { UnreachedStandNowhere }
    ensures never { UnreachedNeverFail }
{}

/// Every end of what is stated of a ready group fits and is met.
pub fn parts_are_met()
    ensures { PartsAreMet }
{}

/// Every end of the stated analysis of a well-formed program covers it, with summaries that hold and
/// points that make their rows true, and before that each procedure has its summary and its flow.
pub fn reports_cover_programs()
    ensures whole { FoundIsWhole }
    ensures covers { ReportsCover }
    ensures summaries { ReportedSummariesHold }
    ensures points { ReportedPointsMeetRows }
{}
