//! What stands on oracles, tried on small calls: an oracle that hands out listed answers, a call
//! that asks for each of several lists and one that stops at the first, and worked examples of the
//! words for questions.
#![tactic(auto)]

mod calls;
mod examples;
mod listed;

pub use calls::{exclusion, exclusions, first_excluded};
pub use examples::{calm_and_tame_questions, corner_and_choices, dead_question, narrow_question};
pub use listed::Listed;
