ghost use Rattle.std.specs.Prelude.{◌≡◌, ◌-◌, IfOk, slice_index_or};
ghost use Rattle.replay.specs.TraceText.{failure_place, is_failed, trace_text};

use crate::text::TraceText;
use crate::trace::{Trace, TraceStop};
use std::alloc::{AllocError, Global};
use syntax_tree::Program;

/// A place of a text: its line and its column, both from 1.
#[derive(Debug, Clone, Copy, PartialEq, Eq)]
pub struct LineColumn {
    pub line: u32,
    pub column: u32,
}

/// The byte at which an assertion stands, by its number from 1; 0 where there is none with this
/// number.
fn check_at(checks: &[u32], number: u32) -> u32
    ensures { result ≡ slice_index_or checks.now (number - 1) 0 }
{
    match checks.get(number.saturating_sub(1) as usize) {
        Some(at) => *at,
        None => 0,
    }
}

/// The byte at which the assertion that failed stands in the text of the program; 0 where none
/// failed.
pub fn failure_place(program: &Program, stop: TraceStop) -> u32
    ensures { result ≡ failure_place program.now stop }
{
    match stop {
        TraceStop::Failed(number) => check_at(program.checks.as_slice(), number),
        _ => 0,
    }
}

/// Whether an assertion failed.
pub fn is_failed(stop: TraceStop) -> bool
    ensures { result ≡ is_failed stop }
{
    matches!(stop, TraceStop::Failed(_))
}

/// The text of a trace, where an assertion that failed stands at a place: a line for each call,
/// choice, assertion that held and return, and a last one that tells why there are no more.
pub fn print(
    alloc: Global,
    program: &Program,
    place: LineColumn,
    trace: &Trace,
) -> Result<Vec<u8>, AllocError>
    ensures { IfOk result (λ text. text.items ≡ trace_text program.now place trace.now) }
{
    let mut text = TraceText {
        bytes: Vec::new(alloc),
    };
    text.put_events(program, &trace.events)?;
    text.put_last_line(program, place, trace)?;
    let TraceText { bytes } = text;
    Ok(bytes)
}
