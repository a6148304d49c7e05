//! What a user reads: the summary of each procedure, the verdict on each assertion with what
//! refutes it, and the notes of what was left out; rows that hold at points; the bounds on a
//! global's change; and the bytes that tell them. Here stands too what a report claims, and when
//! its claims are met.
#![tactic(auto)]

mod blocks;
mod costs;
mod judged;
mod names;
mod notes;
mod points;
mod polynomials;
mod printing;
mod procedures;
mod text;
mod verdict;

pub use blocks::{Judged, ProcBlock, Report};
pub use costs::print_costs;
pub use points::{PointRows, PointsTold, RowsAt};
pub use printing::{print, print_with_points, proved_assertions, unproved_assertions};
pub use verdict::Verdict;
