//! The summaries of recursive groups: whether a call of the group can follow another in one
//! activation.
#![tactic(auto)]

mod bases;
mod calls;
mod candidates;
mod chains;
mod closing;
mod closure;
mod dropping;
mod ends;
mod exits;
mod findings;
mod group;
mod laws;
mod linear;
mod pairs;
mod reaching;
mod refuting;
mod returning;
mod rounds;
mod sides;
mod stations;
mod stretching;
mod tables;

pub use closing::close;
pub use laws::alike_groups_are_one;
pub use linear::is_linear;
pub use tables::with_table;
