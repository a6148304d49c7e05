//! In which directions bounds are asked for at the ends of a program's formulas: the columns that
//! have names, and the linear terms that a procedure compares.
#![tactic(auto)]

mod comparisons;
mod ends;
mod terms;

pub use comparisons::harvest;
pub use ends::{entry, exit, full, pair, start};
