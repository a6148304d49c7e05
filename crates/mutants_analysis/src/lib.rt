//! Public calls of the crates of the analysis, each handed on under its own contract. On these
//! bodies wrong ones are tried: what they show is that the contract refuses a wrong result, whoever
//! made it.
#![tactic(auto)]

pub mod group_calls;
pub mod kept_calls;
pub mod report_calls;
pub mod session_calls;
pub mod summary_calls;
pub mod tree_calls;
pub mod verdict_calls;
