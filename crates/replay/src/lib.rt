//! One execution of a program on given values, step by step: what it shows, how many steps it
//! makes, and why it stops; and the bytes that tell it.
#![tactic(auto)]

mod laws;
mod printing;
mod text;
mod trace;
mod turns;

pub use laws::{
    choices_take_values, chosen_is_an_execution, failed_stop_fails, traces_are_determined,
};
pub use printing::{LineColumn, failure_place, is_failed, print};
pub use trace::{Trace, TraceStop};
pub use turns::follow;
