//! Formulas between the numbers of a state and those of a later one: sequence, choice, and a case
//! put in order, each with what is left out where a step leaves 128 bits or passes degree 4.
#![tactic(auto)]

mod compose;
mod equating;
mod equations;
mod error;
mod formula;
mod hiding;
mod loss;
mod numbering;
mod places;
mod posts;
mod sequence;
mod solution;
mod solving;
mod tidy;

pub use compose::{column, identity, join};
pub use equating::{equated_formula, raised_formula};
pub use error::FormulaError;
pub use formula::Formula;
pub use hiding::hidden;
pub use loss::{Loss, loss_of, note};
pub use posts::{with_entries, with_posts};
pub use sequence::seq;
pub use solving::{Solved, solve};
