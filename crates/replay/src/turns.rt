ghost use Rattle.std.specs.Prelude.{◌≡◌, ◌≤◌, ◌<◌, ◌^◌, Ok, Some, IfErr, IfOk, OnOk, slice_get};
ghost use Rattle.items.specs.Gives.{FailsBy};
ghost use Rattle.syntax_tree.specs.WellFormed.{IsWellFormed};
ghost use Rattle.execution.specs.Chosen.{cause};
ghost use Rattle.execution.specs.Interpreter.{machine_config};
ghost use Rattle.execution.specs.Runnable.{ConfigCanRun};
ghost use Rattle.replay.specs.Chosen.{IsTrace, chosen, step_on};
ghost use Rattle.replay.specs.Follow.{reached_state, stop_of};

use crate::trace::{Trace, TraceStop};
use execution::{Event, Machine, Stop as Cause};
use items::Items;
use std::alloc::{AllocError, Global};
use syntax_tree::Program;

// A run so far: how many values were taken, and what the steps showed.
#[derive(Drop)]
pub(crate) struct Run<'p> {
    pub(crate) machine: Machine<'p>,
    pub(crate) taken: usize,
    pub(crate) events: Items<Event>,
}

// How a run ends.
#[derive(Debug, Clone, Copy)]
pub(crate) struct End {
    pub(crate) steps: u32,
    pub(crate) stop: TraceStop,
}

fn end_of(steps: u32, cause: Cause) -> Result<End, AllocError>
    ensures { IfOk result (λ end. (end.steps ≡ steps) × (stop_of cause ≡ Some end.stop)) }
{
    let stop = match cause {
        Cause::Done(value) => TraceStop::Done(value),
        Cause::Failed(number) => TraceStop::Failed(number),
        Cause::Guard => TraceStop::Guard,
        Cause::Zero => TraceStop::Zero,
        Cause::Dry => TraceStop::Dry,
        Cause::Wide(wide) => TraceStop::Wide {
            left: wide.left,
            right: wide.right,
            op: wide.op,
        },
        Cause::Memory => return Err(AllocError),
    };
    Ok(End { steps, stop })
}

fn number_at(values: &[i128], place: usize) -> Option<i128>
    ensures { result ≡ slice_get values.now place }
{
    values.get(place).copied()
}

impl<'p> Run<'p> {
    // One step more. Where there is none, the run shows what it did.
    fn advance(&mut self, alloc: Global, program: &'p Program, values: &[i128]) -> Result<(), Cause>
        requires well_formed { IsWellFormed program.now }
        requires can_run { ConfigCanRun program.now (machine_config self.old.machine) }
        requires few { self.old.taken < 2 ^ 63 }
        ensures went { OnOk result (step_on program.now values.now (reached_state self.old)
            ≡ Ok (reached_state self.new)) }
        ensures kept { IfErr result (λ e. self.new.events ≡ self.old.events) }
        ensures stopped { IfErr result
            (λ e. FailsBy (cause e) (step_on program.now values.now (reached_state self.old))) }
    {
        let number = number_at(values, self.taken);
        if let Some(event) = self.machine.step(alloc, program, number)? {
            if let Event::Any(_) = event {
                self.taken += 1;
            }
            self.events.push(event)?;
        }
        Ok(())
    }

    // Goes on until there is no step, or all turns are used.
    fn finish(
        &mut self,
        alloc: Global,
        program: &'p Program,
        values: &[i128],
        turns: u32,
    ) -> Result<End, AllocError>
        requires well_formed { IsWellFormed program.now }
        requires begun { chosen program.now values.now 0 ≡ Ok (reached_state self.old) }
        ensures { IfOk result (λ end. IsTrace program.now values.now turns
            (record { events = self.new.events; steps = end.steps; stop = end.stop })) }
    {
        for steps in 0..turns {
            if let Err(cause) = self.advance(alloc, program, values) {
                return end_of(steps, cause);
            }
        }
        let number = number_at(values, self.taken);
        if let Err(cause) = self.machine.step(alloc, program, number) {
            return end_of(turns, cause);
        }
        Ok(End {
            steps: turns,
            stop: TraceStop::Spent,
        })
    }
}

/// The trace of a program on values, for at most so many steps. The n-th choice takes the n-th
/// value, and every column of a new frame that is no parameter is 0. It fails for want of memory
/// alone.
pub fn follow(
    alloc: Global,
    program: &Program,
    values: &[i128],
    turns: u32,
) -> Result<Trace, AllocError>
    requires { IsWellFormed program.now }
    ensures { IfOk result (IsTrace program.now values.now turns) }
{
    let mut run = Run {
        machine: Machine::start(alloc, program)?,
        taken: 0,
        events: Items::new(alloc),
    };
    let End { steps, stop } = run.finish(alloc, program, values, turns)?;
    let Run { events, .. } = run;
    Ok(Trace {
        events,
        steps,
        stop,
    })
}
