//! The ways from a point of a procedure, its entry or the head of a loop, to the nodes to which
//! paths lead that enter no head, and to heads: what holds between the state at the point and the
//! states there, as formulas.
#![tactic(auto)]

mod ahead;
mod edges;
mod ends;
mod laws;
mod parts;
mod ways;

pub use laws::{nodes_ahead_are_led_to, ranks_are_places};
pub use parts::KnownGraph;
pub use ways::way_cells;
