//! The flow graph of a procedure: nodes and edges, each of which does one simple thing or one call.
//! The walks of the graph are exactly what one activation of the procedure can do; the laws are the
//! contracts of functions that do nothing.
#![tactic(auto)]

mod components;
mod error;
mod grouping;
mod laws;
mod making;
mod parts;
mod planning;
mod turns;

pub use error::GraphError;
pub use grouping::{Group, groups};
pub use laws::{
    calls_are_walks, checks_are_walks, groups_are_determined, returns_are_walks,
    returns_have_heights, stacks_are_chains,
};
pub use making::graph;
pub use parts::{Act, CheckNode, Edge, Graph};
