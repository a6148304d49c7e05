//! Induction from point to point: the points of a procedure are its entry and the heads of its
//! loops, and what every passage from one to the next keeps is true in every execution from `main`.
#![tactic(auto)]

mod laws;
mod marks;

pub use laws::kept_assertions_are_true;
pub use marks::{head_marks, heads};
