//! Questions of few columns and small numbers, which always have an answer. In a question of rows
//! or objectives the search of `simplex` meets small numbers alone: fewer equations than unknowns
//! have a small solution (Siegel's lemma), to which each line and each column of a tableau is
//! proportional. In a question about relations each case has room in each direction, so a
//! difference is 0 at all of its points exactly where it is the polynomial 0: the relations are
//! found by the coefficients and constants of differences, one unknown after another, and shown by
//! points around an inner one. Which questions are so narrow is decided by counting, and by asking
//! whether their cases have such points. Beside them stands the reduced basis of what a few small
//! rows span.
#![tactic(auto)]

mod answering;
mod around;
mod basis;
mod descents;
mod inner;
mod kernel;
mod null_vectors;
mod numerators;
mod points;
mod probes;
mod questions;
mod reduction;
mod rooms;
mod sizes;
mod spaces;
mod strata;
mod vectors;

pub use answering::{answer, infeasible, sup};
pub use questions::narrow;
pub use reduction::{are_small_ratios, reduced_basis, uniqueness_of_reduced};
pub use strata::stratum;
