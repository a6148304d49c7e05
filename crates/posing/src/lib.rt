//! Calls that ask an oracle. Each is stated as a computation that makes notes and poses questions;
//! its contract says how far the oracle's answers led it. Every property of what it gives is a law
//! of the computation.
#![tactic(auto)]

mod asking;
mod error;
mod log;
mod note;
mod shared;

pub use asking::{ask, ask_shared};
pub use error::WorkError;
pub use log::Log;
pub use note::{Note, Witness};
pub use shared::SharedAnswer;
