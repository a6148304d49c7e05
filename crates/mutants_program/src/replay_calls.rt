ghost use Rattle.std.specs.Prelude.{◌≡◌, IfOk};
ghost use Rattle.replay.specs.Chosen.{IsTrace};
ghost use Rattle.replay.specs.TraceText.{trace_text};
ghost use Rattle.syntax_tree.specs.WellFormed.{IsWellFormed};

use replay::{LineColumn, Trace};
use std::alloc::{AllocError, Global};
use syntax_tree::Program;

/// The trace of a program on values, for at most so many steps.
pub fn follow(
    alloc: Global,
    program: &Program,
    values: &[i128],
    turns: u32,
) -> Result<Trace, AllocError>
    requires { IsWellFormed program.now }
    ensures { IfOk result (IsTrace program.now values.now turns) }
{
    replay::follow(alloc, program, values, turns)
}

/// The text of a trace.
pub fn print(
    alloc: Global,
    program: &Program,
    place: LineColumn,
    trace: &Trace,
) -> Result<Vec<u8>, AllocError>
    ensures { IfOk result (λ text. text.items ≡ trace_text program.now place trace.now) }
{
    replay::print(alloc, program, place, trace)
}
