//! Products of the rows of a question, which are true of whole numbers where the rows are. So
//! where the rows with their products have no rational point, monomials unrelated, no whole
//! numbers make the rows true.
#![tactic(auto)]

mod factors;
mod gathering;
mod laws;
mod offering;
mod rows;

pub use laws::products_are_true;
pub use offering::products;
