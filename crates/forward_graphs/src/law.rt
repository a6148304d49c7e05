ghost use Rattle.forward_graphs.specs.Law.{EvaluationFits, EvaluationHolds};

/// What a graph is evaluated to holds of every run along a walk from the source, whatever true
/// answers are given, and goes between the columns of the source and of its node, by formulas that
/// are small enough to go on with. It does nothing when it runs.
pub fn evaluation_covers_walks()
    ensures holds { EvaluationHolds }
    ensures fits { EvaluationFits }
{}
