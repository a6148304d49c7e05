//! What answers the questions of the analysis: a searcher that never declines one.
#![tactic(auto)]

mod copies;
mod finder;
mod known;
mod near;
mod prints;
mod weights;

pub use finder::Finder;
pub use known::KnownAnswers;
pub use weights::weight;
