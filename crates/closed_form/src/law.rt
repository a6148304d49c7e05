ghost use Rattle.std.specs.Prelude.{pos};
ghost use Rattle.closed_form.specs.Differences.{IsForwardSum, ForwardDifferenceFormula, Run, IsRun};

/// Newton's forward difference formula, for a sequence whose third difference is constant and for
/// the first steps of one. It does nothing when it runs.
pub fn forward_differences()
    ensures sequences { ForwardDifferenceFormula }
    ensures runs { (run : Run) → IsRun run →
        IsForwardSum (run.numbers run.steps) (run.numbers 0) (run.first 0) (run.second 0) run.third
        (pos run.steps) }
{}
