//! Public calls of the crates of formulas, each handed on under its own contract. On these bodies
//! wrong ones are tried: what they show is that the contract refuses a wrong result, whoever made
//! it.
#![tactic(auto)]

pub mod closed_form_calls;
pub mod leaf_calls;
pub mod polyhedra_calls;
pub mod recurrence_calls;
pub mod terms_calls;
pub mod transition_calls;
