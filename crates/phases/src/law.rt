ghost use Rattle.phases.specs.Law.{PhasesHold, PhasesFit, RepetitionsHold, RepetitionsFit};

/// Phases hold of every repetition of their body, whatever true answers are given, and are a
/// formula over the body's columns with at most 16 cases, each of at most 64 rows and 64
/// auxiliaries. It does nothing when it runs.
pub fn phases_cover_chains()
    ensures holds { PhasesHold }
    ensures fits { PhasesFit }
{}

/// Both hold of what a body is repeated to by any rule, with phases or without. It does nothing when
/// it runs.
pub fn repetitions_cover_chains()
    ensures holds { RepetitionsHold }
    ensures fits { RepetitionsFit }
{}
