//! Formulas made small with the help of an oracle: cases that hold of nothing are dropped, rows
//! that follow from others are left out, and many cases are made one that holds of all that they
//! hold of.
#![tactic(auto)]

mod after;
mod bounds;
mod candidates;
mod changes;
mod finishing;
mod fitting;
mod goals;
mod infeasible;
mod losses;
mod relations;
mod settling;
mod thinning;
mod variables;
mod vocabulary;

pub use after::{changes_after, entries_of, posts_after};
pub use bounds::{
    Displacement, bound_by, bounds_after, bounds_before, bounds_on_changes, with_row,
};
pub use candidates::directions;
pub use changes::change;
pub use finishing::finish;
pub use fitting::{coverage_of_fitting, fit, size_of_fitting};
pub use posing::{Log, Note, Witness, WorkError};
pub use relations::{add_row, relation_rows, relations_of};
pub use settling::{coverage_of_settling, settle};
pub use thinning::{coverage_of_thinning, thin};
pub use variables::{Movement, movement_of};
pub use vocabulary::Vocabulary;
