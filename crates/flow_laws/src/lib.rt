//! What holds of every end of the stated flow of a procedure, and of its stated summary.
#![tactic(auto)]

mod laws;

pub use laws::{flows_are_true, summaries_are_true};
