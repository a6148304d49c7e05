//! The search for rows that hold at points and exits: candidates, of which those that some step does
//! not keep are dropped. Nothing rests on it: what it finds is a table, which rounds of questions
//! judge anew.
#![tactic(auto)]

mod arrivals;
mod asker;
mod bounds;
mod case_search;
mod counts;
mod dropping;
mod found;
mod places;
mod steps;
mod strongest;
mod tables;
mod texts;
mod tried;

pub use found::{FoundTable, found_table};
