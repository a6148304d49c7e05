//! Entries of procedures and verdicts on assertions: the globals and parameters with which a
//! procedure may begin, and whether an assertion can fail, by the cases in which it would.
#![tactic(auto)]

mod assertion;
mod callings;
mod edges;
mod entry_formulas;
mod extending;
mod judging;
mod laws;
mod nodes;
mod place;
mod second_questions;
mod stand;

pub use assertion::{Assertion, graph_verdict, verdict};
pub use entry_formulas::entries;
pub use extending::{extended_case, extended_formula};
pub use judging::verdict_on_cases;
pub use laws::assertions_hold;
pub use second_questions::with_products;
