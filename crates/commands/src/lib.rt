//! The commands of `cra`: what the words of the command line and the input are answered with. All
//! of it goes through `run`, whose contract says what the program does.
#![tactic(auto)]

mod analysing;
mod certifying;
mod checking;
mod costing;
mod editing;
mod help;
mod input;
mod laws;
mod limits;
mod output;
mod proving;
mod refusal;
mod renewing;
mod replaying;
mod reply;
mod running;
mod sampling;
mod status;
mod submitting;
mod text;
mod words;

pub use certifying::file_reply;
pub use limits::{MOST_FILE, MOST_INPUT};
pub use reply::Reply;
pub use running::run;
pub use status::Status;
