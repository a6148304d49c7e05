//! The analysis of a program: the summaries of its procedures, group by group, then the entries of
//! procedures, and then a verdict on each assertion, put together as a report.
#![tactic(auto)]

mod blocks;
mod found;
mod judging;
mod names;
mod parts;
mod places;
mod planning;
mod standing;
mod whole;

pub use found::{Found, findings_by_plan};
pub use names::global_names;
pub use parts::{GroupSummaries, Part, part_of, part_with, summaries_apart};
pub use places::TextPlace;
pub use planning::{GroupKind, Planned, plan};
pub use standing::{CheckAt, Standing, check_with, standing_of};
pub use whole::{FoundReport, analyse, found_report, report_by_findings};
