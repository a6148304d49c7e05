//! What is told of a row of tests. A row is read and answered part by part; where a part is none,
//! the row is lost, and 0 or an empty value stands in its place. So a function of several parts
//! has one end.
#![tactic(auto)]

mod told;

pub use told::Told;
