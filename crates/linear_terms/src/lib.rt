//! Polynomials over columns with numbers of 128 bits, rows that they make, and the normal form of a
//! row. Each operation answers what the operation on plain polynomials is, or the first step that
//! leaves 128 bits or passes degree 4.
#![tactic(auto)]

mod auxiliaries;
mod col;
mod error;
mod expressions;
mod mono;
mod multiply;
mod normalise;
mod poly;
mod row;
mod scaling;
mod substitute;
mod sums;
mod text;
mod total;

pub use auxiliaries::{renumbered_poly, subst_aux, without};
pub use col::Col;
pub use error::TermError;
pub use expressions::{combination, difference, negation};
pub use mono::Mono;
pub use multiply::mul;
pub use normalise::normal;
pub use poly::Poly;
pub use row::{Case, Kind, Normal, Row, see_rows};
pub use scaling::scale;
pub use substitute::subst;
pub use sums::add;
