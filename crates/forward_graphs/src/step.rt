ghost use Rattle.std.specs.Prelude.{◌≡◌, ◌<◌, length};
ghost use Rattle.forward_graphs.specs.Graph.{step_at};

use transition_formula::Formula;

/// All links from one node to another, as one formula.
#[derive(Debug, Drop)]
pub struct Step {
    pub from: u32,
    pub to: u32,
    /// What holds between the states at these nodes.
    pub formula: Formula,
}

pub(crate) fn step_at(steps: &[Step], number: usize) -> &Step
    requires { number < length steps.now }
    ensures { result.now ≡ step_at steps.now number }
{
    &steps[number]
}
