//! The flow of one procedure, which has a formula for each node that counts, and its summary: what
//! holds between the globals and parameters at its entry and the globals and the returned value at
//! its exit.
#![tactic(auto)]

mod columns;
mod edges;
mod laws;
mod nodes;
mod stop;
mod stops;
mod summary;

pub use edges::{full_vocabularies, see_fit};
pub use laws::alike_procedures_are_one;
pub use nodes::{cells, trees};
pub use stop::{Flow, NodeFormula};
pub use stops::{flow, formula_at};
pub use summary::{exit_summary, project};
