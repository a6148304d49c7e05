//! Formulas of the walks of a graph whose links all lead forward: each link has a formula, and each
//! node comes to one that holds of all walks from a source. No walk turns a loop.
#![tactic(auto)]

mod arriving;
mod fitting;
mod graph;
mod joining;
mod law;
mod leaves;
mod order;
mod step;
mod walking;

pub use graph::ForwardGraph;
pub use joining::Joining;
pub use law::evaluation_covers_walks;
pub use order::StepEnd;
pub use step::Step;
pub use walking::walk_cells;
