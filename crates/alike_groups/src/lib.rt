//! Whether nothing in their summaries tells two groups of procedures apart, of one program or of
//! two: then what is found of the one is what is found of the other.
#![tactic(auto)]

mod callees;
mod group;
mod groups;
mod laws;
mod procs;
mod stmts;
mod terms;

pub use group::KnownGroup;
pub use groups::are_alike;
pub use laws::alike_parts_are_one;
