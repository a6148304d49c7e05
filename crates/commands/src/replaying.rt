ghost use Rattle.std.specs.Prelude.{◌≡◌, ◌≤◌, length, IfOk};
ghost use Rattle.summary_cache.specs.Accepted.{Accepts};
ghost use Rattle.summary_cache.specs.Limits.{most_bytes};
ghost use Rattle.commands.specs.Replay.{IsReplyToReplay, IsTraceOf, place_of, status_of, trace_reply};
ghost use Rattle.commands.specs.Within.{wrong_input, wrong_text};
ghost use Rattle.commands.specs.Status.{IsAnswer};

use crate::limits::MOST_INPUT;
use crate::reply::{Reply, refused_reply, too_long};
use crate::status::Status;
use crate::text::between;
use items::Items;
use itoa::Buffer;
use replay::{
    LineColumn, Trace, TraceStop, failed_stop_fails, failure_place, follow, is_failed, print,
};
use std::alloc::{AllocError, Global};
use summary_cache::{TextError, accepted_is_well_formed, column_at, line_at, read};
use syntax_tree::Program;
use wire::{Input, WireError, read_replay};

/// What is wrong with an input. Want of memory is nothing wrong.
fn wrong_text(alloc: Global, error: &WireError) -> Result<Vec<u8>, AllocError>
    ensures { IfOk result (λ text. text.items ≡ wrong_text error.now) }
{
    let mut digits = Buffer::new();
    match error {
        WireError::Json => between(alloc, b"input is not JSON\n", b"", b""),
        WireError::Shape(path) => between(alloc, b"input has a wrong shape at ", path, b"\n"),
        WireError::Version(number) => {
            let number = digits.format(*number);
            between(alloc, b"version ", number.as_bytes(), b" is not known\n")
        }
        WireError::Edit(number) => {
            let number = digits.format(*number);
            between(alloc, b"edit ", number.as_bytes(), b" is out of range\n")
        }
        WireError::Memory => Ok(Vec::new(alloc)),
    }
}

/// The answer to an input with which something is wrong.
pub fn wrong_input(alloc: Global, error: &WireError) -> Result<Reply, AllocError>
    ensures reply { IfOk result (λ reply. reply ≡ wrong_input error.now) }
    ensures status { IfOk result (λ reply. IsAnswer reply.status) }
{
    Ok(Reply {
        status: Status::WrongInput,
        text: Items::from_vec(wrong_text(alloc, error)?),
    })
}

/// The line and the column of a byte of a text.
fn place_of(text: &[u8], at: u32) -> LineColumn
    requires { length text.now ≤ most_bytes }
    ensures { result ≡ place_of text.now at }
{
    LineColumn {
        line: line_at(text, at),
        column: column_at(text, at),
    }
}

/// Whether an assertion failed.
fn status_of(stop: TraceStop) -> Status
    ensures status { result ≡ status_of stop }
    ensures answer { IsAnswer result }
{
    if is_failed(stop) {
        Status::SomeFailed
    } else {
        Status::NoneFailed
    }
}

/// The answer that tells a trace.
fn trace_reply(
    alloc: Global,
    text: &[u8],
    program: &Program,
    trace: &Trace,
) -> Result<Reply, AllocError>
    requires { length text.now ≤ most_bytes }
    ensures reply { IfOk result (λ reply. reply ≡ trace_reply text.now program.now trace.now) }
    ensures status { IfOk result (λ reply. IsAnswer reply.status) }
{
    let place = place_of(text, failure_place(program, trace.stop));
    let text = print(alloc, program, place, trace)?;
    Ok(Reply {
        status: status_of(trace.stop),
        text: Items::from_vec(text),
    })
}

/// The answer to a program that the text of an input spells.
fn reply_to_accepted(alloc: Global, input: &Input, program: &Program) -> Result<Reply, AllocError>
    requires short { length input.now.text ≤ most_bytes }
    requires accepted { Accepts input.now.text program.now }
    ensures reply { IfOk result (IsTraceOf input.now) }
    ensures status { IfOk result (λ reply. IsAnswer reply.status) }
{
    accepted_is_well_formed();
    failed_stop_fails();
    let trace = follow(alloc, program, &input.values, input.turns)?;
    trace_reply(alloc, input.text.as_str().as_bytes(), program, &trace)
}

/// The answer to an input.
fn reply_to_input(alloc: Global, input: &Input) -> Result<Reply, AllocError>
    requires { length input.now.text ≤ most_bytes }
    ensures reply { IfOk result (IsTraceOf input.now) }
    ensures status { IfOk result (λ reply. IsAnswer reply.status) }
{
    let text = input.text.as_str().as_bytes();
    match read(alloc, text) {
        Ok(program) => reply_to_accepted(alloc, input, &program),
        Err(TextError::Refused(refusal)) => refused_reply(alloc, text, refusal),
        Err(TextError::Memory) => Err(AllocError),
    }
}

/// The answer to bytes on which an execution is to be followed.
#[tactic(auto, using(crate::proofs::Replays::short_input))]
pub fn replay_reply(alloc: Global, bytes: &[u8]) -> Result<Reply, AllocError>
    ensures reply { IfOk result (IsReplyToReplay bytes.now) }
    ensures status { IfOk result (λ reply. IsAnswer reply.status) }
{
    if bytes.len() > MOST_INPUT {
        return too_long(alloc);
    }
    match read_replay(alloc, bytes) {
        Ok(input) => reply_to_input(alloc, &input),
        Err(WireError::Memory) => Err(AllocError),
        Err(error) => wrong_input(alloc, &error),
    }
}
