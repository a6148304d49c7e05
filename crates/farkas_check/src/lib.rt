//! Questions about rational points, answers with certificates, and the test of an answer. The test
//! is small and takes no memory: multipliers by Farkas, points and rays. A test that is passed
//! means that the answer is true.
#![tactic(auto)]

mod answer;
mod columns;
mod free;
mod kept;
mod lines;
mod multiples;
mod oracle;
mod passing;
mod points;
mod question;
mod ratio;
mod search;
mod source;
mod stratum;
mod ties;

pub use answer::{Answer, Cert, Limit};
pub use columns::{case_columns, stratum_columns};
pub use kept::{canonical_goals, canonical_rows, canonical_stratum, canonicity, positivity};
pub use oracle::{AskError, Oracle};
pub use passing::{
    goals_outcome, rows_outcome, stratum_outcome, test, test_width, truth_of_passing,
};
pub use question::{Goal, Question};
pub use ratio::{Ratio, common_multiple, exactness_of_ratios};
pub use stratum::{Change, Relation, Spot, Stratum, Tie, entry, term_count, unknown_count};
