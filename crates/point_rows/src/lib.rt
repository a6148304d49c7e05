//! Rows over columns, read where these columns are posts: those that hold where a step begins, what
//! is true at its end where a row is not, and rows that hold where procedures return, put behind
//! those of the procedures' known formulas.
#![tactic(auto)]

mod contrary;
mod exits;
mod given;
mod laws;
mod reading;

pub use contrary::contraries;
pub use exits::formulas_with_exits;
pub use given::given_rows;
pub use laws::{exit_rows_are_met, given_rows_fit, read_rows_hold};
