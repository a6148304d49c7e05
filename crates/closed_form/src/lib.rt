//! Rows of closed forms: what a sequence is after a number of steps, from its number and its first
//! three differences at the start, wherever the third difference is constant (Newton's forward
//! difference formula); and how far a number can grow whose growth is bounded by an arithmetic
//! progression.
#![tactic(auto)]

mod law;
mod newton;
mod products;
mod progression;

pub use law::forward_differences;
pub use newton::row;
pub use progression::sum_row;
