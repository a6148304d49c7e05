//! Public calls of the crates of questions, each handed on under its own contract. On these bodies
//! wrong ones are tried: what they show is that the contract refuses a wrong result, whoever made
//! it.
#![tactic(auto)]

pub mod elimination_calls;
pub mod farkas_calls;
pub mod simplex_calls;
pub mod wire_calls;
