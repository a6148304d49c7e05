//! Which assertions of a program are told as proved without a question: those that stand in no
//! graph, and none of them fails. Every end of the stated analysis covers its program.
#![tactic(auto)]

mod laws;

pub use laws::{parts_are_met, reports_cover_programs, unreached_checks_never_fail};
