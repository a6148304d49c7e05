//! The limits that a report names, under a rule without phases, are exactly those among the answers
//! under which it was made, part by part: none is hidden, and none is made up.
#![tactic(auto)]

mod laws;

pub use laws::{analysis_names_limits, limitless_answers_name_none, tame_questions_name_none};
