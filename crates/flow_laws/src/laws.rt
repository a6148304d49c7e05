//! Each law is the contract of a function that does nothing.
ghost use Rattle.flow_laws.specs.Laws.{FlowsAreTrue, SummariesAreTrue};

/// Every end of the stated flow of a procedure fits it, has no formula exactly for the nodes that no
/// path leads to, and holds of its activations where the known formulas are met.
pub fn flows_are_true()
    ensures { FlowsAreTrue }
{}

/// Every end of its stated summary may be known, and is met where the known formulas are.
pub fn summaries_are_true()
    ensures { SummariesAreTrue }
{}
