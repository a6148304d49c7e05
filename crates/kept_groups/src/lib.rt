//! What an analysis keeps of the groups of a program, and the same of the next program, where each
//! group that nothing tells apart from one that was kept takes its part over, with its answers, and
//! asks nothing.
#![tactic(auto)]

mod alike;
mod copies;
mod kept;
mod over;
mod steps;

pub use kept::{KeptGroups, KeptPart};
pub use over::{FoundParts, findings_over};
pub use steps::Steps;
