//! What it means to run a program of the core: configurations, one step, executions, and how they
//! return or fail. Laws that show what was meant are the contracts of functions that do nothing,
//! and a plain slow interpreter makes these steps and no others.
#![tactic(auto)]

mod interpreter;
mod laws;
mod outcome;

pub use interpreter::{Activation, Machine, Repeat, Task};
pub use laws::{
    chosen_execution_steps, chosen_execution_stops, columns_determine_step, executions_join,
    failed_check_stops, frames_below_stay, globals_stay, step_is_determined, straight_lines_run,
    worked_examples_run,
};
pub use outcome::{Event, Stop};
