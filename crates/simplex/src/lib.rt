//! The simplex method over rational numbers, exact and with certificates, in 128 bits. The rows of
//! a case are the lines of a tableau of whole numbers; first the equations and then the
//! inequalities are solved for their columns, and each inequality that is not met is raised, by
//! lexicographic exchanges that come to no choice twice. What is found is an answer with
//! multipliers or a point, and passes the test of `farkas_check`. From a corner of the rows an
//! objective is raised in the same way, up to a corner where a certificate bounds it or along a ray
//! without end.
#![tactic(auto)]

mod answering;
mod corner;
mod differences;
mod endings;
mod frame;
mod gauss;
mod goals;
mod next_supremum;
mod questions;
mod raise;
mod replies;
mod same_rows;
mod search;
mod shortness;
mod spots;
mod steps;
mod stop;
mod strata;
mod supremum;
mod swap;
mod tableau;
mod values;
mod widening;

pub use answering::infeasible;
pub use endings::Endings;
pub use goals::{sup, sup_with};
pub use questions::answer;
pub use raise::{RaiseEnd, Turn};
pub use replies::answer_with;
pub use search::{SearchEnd, TurnEnd};
pub use stop::SearchStop;
pub use strata::stratum;
pub use supremum::{Supremum, Top, supremum_of};
pub use tableau::Tableau;
pub use values::{common_denominator, numerators_over};
