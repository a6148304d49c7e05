//! Each law is the contract of a function that does nothing.
ghost use Rattle.named_limits.specs.Laws.{AnalysisNamesLimits, LimitlessAnswersNameNone};
ghost use Rattle.named_limits.specs.Laws.{TameQuestionsNameNone};

/// The limits of a report, under a rule without phases, are those of the answers under which it was
/// made, and each part names those of its own share of the answers.
pub fn analysis_names_limits()
    ensures { AnalysisNamesLimits }
{}

/// Where no answer is a limit, the report has none.
pub fn limitless_answers_name_none()
    ensures { LimitlessAnswersNameNone }
{}

/// Where no tame question gets a limit, and every question posed is tame, the report has none.
pub fn tame_questions_name_none()
    ensures { TameQuestionsNameNone }
{}
