//! States of points, the entries of procedures and the heads of their loops, and the steps from a
//! point to the next: to heads, to entries of procedures that are called, to the exit and to
//! assertions.
#![tactic(auto)]

mod ends;
mod outs;
mod source;
mod states;
mod stepping;
mod target;
mod telling;

pub use source::StepSource;
pub use states::state;
pub use stepping::steps;
pub use target::{PointStep, Target};
