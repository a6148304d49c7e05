ghost use Rattle.checked_tree.specs.ByNumber.{PlansEvaluate};
ghost use Rattle.checked_tree.specs.Law.{EvaluationHolds, EvaluationFits};
ghost use Rattle.checked_tree.specs.TreeLaw.{TreesHold, TreesFit, RunsAreRelated};
ghost use Rattle.checked_tree.specs.UnderWay.{PlansBegin, PlansGoOn};

/// What a graph is evaluated to holds of every run along a walk from the source, whatever true
/// answers are given, and goes between the columns of the source and of its node, by formulas that
/// are small enough to go on with. It does nothing when it runs.
pub fn evaluation_covers_walks()
    ensures holds { EvaluationHolds }
    ensures fits { EvaluationFits }
{}

/// A plan evaluates its graph: by the numbers of paths the same questions and notes come in the
/// same order, and the same formulas. It begins, and each step leaves it, such that each operand of
/// the next operation was made, between the vocabularies of its nodes. It does nothing when it
/// runs.
pub fn plans_evaluate_graphs()
    ensures same { PlansEvaluate }
    ensures begins { PlansBegin }
    ensures goes_on { PlansGoOn }
{}

/// The formula of a checked tree holds of what its leaves relate, goes between the vocabularies of
/// its ends, and is small enough to go on with. The leaves of a graph's tree relate each run along
/// a word of its path. It does nothing when it runs.
pub fn trees_cover_runs()
    ensures holds { TreesHold }
    ensures fits { TreesFit }
    ensures related { RunsAreRelated }
{}
