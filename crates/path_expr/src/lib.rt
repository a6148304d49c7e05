//! Path expressions of a graph: regular expressions over its links that stand for all walks from a
//! source, found by elimination of one node after the other (Tarjan 1981), for every algebra that
//! can put paths together.
#![tactic(auto)]

mod algebra;
mod arrival;
mod beginning;
mod cell;
mod elimination;
mod evaluation;
mod law;
mod link;
mod numbers;
mod path;
mod plain_paths;
mod rows;
mod steps;
mod table;

pub use algebra::Algebra;
pub use cell::{Cell, ReachError};
pub use evaluation::reach;
pub use law::paths_are_walks;
pub use link::Link;
pub use path::Path;
pub use plain_paths::{PathError, PlainPaths};
