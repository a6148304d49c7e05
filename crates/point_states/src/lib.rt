//! The states of the points of a whole program: the entries of its procedures and the heads of
//! their loops.
#![tactic(auto)]

mod states;

pub use states::point_states;
