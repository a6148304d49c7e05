//! Public calls of the crates of programs, each handed on under its own contract. On these bodies
//! wrong ones are tried: what they show is that the contract refuses a wrong result, whoever made
//! it.
#![tactic(auto)]

pub mod execution_calls;
pub mod graph_calls;
pub mod lexer_calls;
pub mod parser_calls;
pub mod replay_calls;
pub mod syntax_calls;
pub mod typing_calls;
