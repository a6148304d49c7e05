use transition_formula::Formula;

/// Where a step from a point leads.
#[derive(Clone, Copy, Debug, PartialEq, Eq)]
pub enum Target {
    /// To the head of a loop, by its node.
    Head(u32),
    /// To the entry of a procedure that is called, by its number.
    Entry(u32),
    /// To the exit of the procedure.
    Exit,
    /// To an assertion, by its number among those of the procedure's graph.
    Check(u32),
}

/// A step from a point: a formula from no columns to those of the point, and behind them those of
/// the target.
#[derive(Debug, Drop)]
pub struct PointStep {
    pub target: Target,
    pub formula: Formula,
}
