//! Worked commands of `cra`, by their words, inputs and outputs, and what comes of streams that
//! fail; and texts at their limits and one past them.
#![tactic(auto)]

#[cfg(test)]
mod limits;
#[cfg(test)]
mod tables;
#[cfg(test)]
mod worked;
