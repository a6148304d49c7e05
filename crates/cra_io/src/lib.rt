//! Where bytes come from and where they go: a source that is read and a sink that is written, in
//! pieces as short as they please, each with a count of its faults, so that a caller can tell a
//! failure of the outside from one of its own. Both stand over memory, for tests, and over the
//! readers and writers of std.
#![tactic(auto)]

mod memory_sink;
mod memory_source;
mod read_source;
mod traits;
mod write_sink;

pub use memory_sink::{MemorySink, SinkError};
pub use memory_source::MemorySource;
pub use read_source::ReadSource;
pub use traits::{Failed, Sink, Source};
pub use write_sink::WriteSink;

#[cfg(test)]
mod tests;
