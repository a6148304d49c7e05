//! A session over texts: each text that is accepted is analysed, and what is found of its groups, its
//! report and its answers are kept until the next one is.
#![tactic(auto)]

mod error;
mod last;
mod laws;
mod limits;
mod place;
mod reading;
mod refusal;
mod session;
mod working;

pub use error::SubmitError;
pub use last::{Analysed, Last};
pub use laws::{
    accepted_has_rule_two, accepted_is_not_refused, accepted_is_well_formed, assertions_ascend,
    calls_are_statements, claims_know_no_rule, refusal_is_one, rules_are_free,
    text_is_accepted_once,
};
pub use limits::MOST_BYTES;
pub use place::{column_at, line_at, places_of};
pub use reading::read;
pub use refusal::{Refusal, TextError};
pub use session::Session;
pub use working::{Counts, with_rule};
