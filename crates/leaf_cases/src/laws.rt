//! What known formulas say of calls. Each law is the contract of a function that does nothing.
ghost use Rattle.leaf_cases.specs.Summaries.{MetCallsAreKnown, MetEdgesAreKnown};

/// Where the known formulas are met, each call that returns is a known call, and each edge of an
/// execution relates its states by the known formulas.
pub fn met_calls_are_known()
    ensures calls { MetCallsAreKnown }
    ensures edges { MetEdgesAreKnown }
{}
