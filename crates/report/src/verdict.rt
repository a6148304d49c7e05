use farkas_check::{Limit, Ratio};
use items::Items;
use linear_terms::Case;

/// What is found of an assertion.
#[derive(Debug, Drop)]
pub enum Verdict {
    /// No execution fails it.
    Proved,
    /// A case in which it would fail, with a post for each named column, and a point that makes the
    /// case's rows true: a number for each of their monomials, in print order.
    Unproved { case: Case, point: Items<Ratio> },
    /// A case in which it would fail, which was neither refuted nor has a point, and the limit of
    /// the question about it.
    UnprovedLimit { case: Case, limit: Limit },
}
