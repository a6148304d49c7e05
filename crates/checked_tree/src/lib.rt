//! Formulas of the walks of a graph: each link has a formula, and each node comes to one that holds
//! of all walks from a source, by the stated elimination.
#![tactic(auto)]

mod checked;
mod evaluating;
mod growth;
mod key;
mod law;
mod making;
mod mark;
mod operations;
mod plan;
mod step;
mod table;

pub use checked::Checked;
pub use evaluating::{evaluate, evaluate_formulas};
pub use key::Key;
pub use law::{evaluation_covers_walks, plans_evaluate_graphs, trees_cover_runs};
pub use operations::{either, leaf, sequence, settled_and_fitted};
pub use plan::{EliminationPlan, elimination_plan};
pub use step::{Node, TreeStep};
pub use table::formulas_of;
