//! Certificate files and edit scripts, as JSON: what each part has to look like, where the first
//! wrong part is, and how the whole is written so that it reads back. And the oracle that hands out
//! kept answers.
#![tactic(auto)]

mod answers;
mod certificate;
mod error;
mod input;
mod laws;
mod numbers;
mod replay;
mod script;
mod shape;
mod sharing;
mod text;

pub use certificate::{Certificate, Version, read_certificate, write_certificate};
pub use error::WireError;
pub use input::{Input, read_replay};
pub use laws::newline_is_read_over;
pub use replay::ListedAnswers;
pub use script::{Edit, Script, read_script, texts};
pub use sharing::share;
pub use text::FileText;
