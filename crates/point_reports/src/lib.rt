//! The analysis of a program with what holds at points: where some assertion is not proved, rows
//! that hold at the entries and heads of procedures and where they return are looked for, tested in
//! rounds of questions, and told, and the assertions are judged once more by them.
#![tactic(auto)]

mod again;
mod blocks;
mod numbers;
mod rounds;
mod whole;

pub use whole::{PointReport, prove};
