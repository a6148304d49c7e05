ghost use Rattle.std.specs.Prelude.{◌≡◌, IfOk};
ghost use Rattle.execution.specs.Chosen.{chosen_start, chosen_step};
ghost use Rattle.execution.specs.Interpreter.{machine_config, Takes};
ghost use Rattle.execution.specs.Runnable.{ConfigCanRun};
ghost use Rattle.syntax_tree.specs.WellFormed.{IsWellFormed};

use execution::{Event, Machine, Stop};
use std::alloc::{AllocError, Global};
use syntax_tree::Program;

/// A program as `main` begins.
pub fn start<'p>(alloc: Global, program: &'p Program) -> Result<Machine<'p>, AllocError>
    requires { IsWellFormed program.now }
    ensures { IfOk result (λ machine. machine_config machine ≡ chosen_start program.now) }
{
    Machine::start(alloc, program)
}

/// The chosen step of a machine, and what it shows.
pub fn step<'p>(
    machine: &mut Machine<'p>,
    alloc: Global,
    program: &'p Program,
    number: Option<i128>,
) -> Result<Option<Event>, Stop>
    requires well_formed { IsWellFormed program.now }
    requires fits { ConfigCanRun program.now (machine_config machine.old) }
    ensures { Takes machine.new result
        (chosen_step program.now number (machine_config machine.old)) }
{
    machine.step(alloc, program, number)
}
