//! Which bodies have an outcome of their hull that is no limit.
#![tactic(auto)]

mod laws;

pub use laws::{calm_bodies_have_no_limit, small_bodies_have_no_limit};
