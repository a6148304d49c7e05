//! Verdicts from points: whether an assertion can fail, by the steps from points that lead to it
//! and the rows that are true in every execution from `main` where these steps begin.
#![tactic(auto)]

mod arrivals;
mod assertion;
mod failures;
mod questions;
mod steps;

pub use assertion::{PointAssertion, is_excluded};
