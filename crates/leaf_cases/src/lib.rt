//! Cases of expressions and the formulas of edges: the formula of an edge holds of two states
//! exactly where the edge leads from one to the other, up to what is lost because a step leaves 128
//! bits or passes degree 4.
#![tactic(auto)]

mod assignment;
mod call;
mod claims;
mod division;
mod edge;
mod expression;
mod guard;
mod laws;
mod listed;
mod step;

pub use call::call_entry;
pub use edge::leaf;
pub use guard::{falsity, truth};
pub use laws::met_calls_are_known;
