ghost use Rattle.std.specs.Prelude.{◌≡◌, ◌++◌, codes, decimal, slice_get};
ghost use Rattle.std.specs.Fmt.{signed_decimal};
ghost use Rattle.std.specs.List.{flat_map, join_by};
ghost use Rattle.execution.specs.declared.outcome.Event.TheVariants.{Call};
ghost use Rattle.replay.specs.Appends.{Appends};
ghost use Rattle.replay.specs.TraceText.{cause_text, event_line, event_text, last_line, name_of, op_text, returned_text};

use crate::printing::LineColumn;
use crate::trace::{Trace, TraceStop};
use execution::Event;
use itoa::Buffer;
use std::alloc::AllocError;
use syntax_tree::{Op, Proc, Program};

/// A text that is being made.
#[derive(Debug, Drop)]
pub(crate) struct TraceText {
    pub(crate) bytes: Vec<u8>,
}

/// How C spells an operator.
fn spelling(op: Op) -> &'static [u8]
    ensures { result.now ≡ op_text op }
{
    match op {
        Op::Add => b"+",
        Op::Sub => b"-",
        Op::Mul => b"*",
        Op::Div => b"/",
        Op::Rem => b"%",
        Op::Lt => b"<",
        Op::Le => b"<=",
        Op::Gt => b">",
        Op::Ge => b">=",
        Op::Eq => b"==",
        Op::Ne => b"!=",
        Op::And => b"&&",
        Op::Or => b"||",
    }
}

impl TraceText {
    fn put(&mut self, bytes: &[u8]) -> Result<(), AllocError>
        ensures { Appends self.old self.new result bytes.now }
    {
        self.bytes.extend_from_slice(bytes)
    }

    fn put_count(&mut self, n: u32) -> Result<(), AllocError>
        ensures { Appends self.old self.new result (decimal n) }
    {
        self.put(Buffer::new().format(n).as_bytes())
    }

    fn put_number(&mut self, n: i128) -> Result<(), AllocError>
        ensures { Appends self.old self.new result (signed_decimal n) }
    {
        self.put(Buffer::new().format(n).as_bytes())
    }

    /// Numbers, with a comma and a space between two of them.
    fn put_numbers(&mut self, numbers: &[i128]) -> Result<(), AllocError>
        ensures { Appends self.old self.new result
            (join_by signed_decimal (codes ", ") numbers.now) }
    {
        let Some((first, more)) = numbers.split_first() else {
            return Ok(());
        };
        self.put_number(*first)?;
        for number in more {
            self.put(b", ")?;
            self.put_number(*number)?;
        }
        Ok(())
    }

    fn put_name(&mut self, procs: &[Proc], place: u32) -> Result<(), AllocError>
        ensures { Appends self.old self.new result (name_of (slice_get procs.now place)) }
    {
        match procs.get(place as usize) {
            Some(proc) => self.put(proc.name.as_slice()),
            None => Ok(()),
        }
    }

    /// A returned value behind a space, where the procedure returns one.
    fn put_returned(&mut self, program: &Program, place: u32, value: i128) -> Result<(), AllocError>
        ensures { Appends self.old self.new result
            (returned_text (slice_get program.now.procs place) value) }
    {
        match program.procs.get(place as usize) {
            Some(proc) if proc.returns => {
                self.put(b" ")?;
                self.put_number(value)
            }
            _ => Ok(()),
        }
    }

    fn put_call(&mut self, program: &Program, proc: u32, args: &[i128]) -> Result<(), AllocError>
        ensures { Appends self.old self.new result (event_text program.now (Call proc args.now)) }
    {
        self.put(b"call ")?;
        self.put_name(&program.procs, proc)?;
        self.put(b"(")?;
        self.put_numbers(args)?;
        self.put(b")")
    }

    fn put_event(&mut self, program: &Program, event: &Event) -> Result<(), AllocError>
        ensures { Appends self.old self.new result (event_text program.now event.now) }
    {
        match event {
            Event::Call { proc, args } => self.put_call(program, *proc, args),
            Event::Any(value) => {
                self.put(b"any ")?;
                self.put_number(*value)
            }
            Event::Holds(number) => {
                self.put(b"check ")?;
                self.put_count(*number)?;
                self.put(b" holds")
            }
            Event::Return { proc, value } => {
                self.put(b"return")?;
                self.put_returned(program, *proc, *value)
            }
        }
    }

    /// A line for each of the events.
    pub(crate) fn put_events(
        &mut self,
        program: &Program,
        events: &[Event],
    ) -> Result<(), AllocError>
        ensures { Appends self.old self.new result (flat_map (event_line program.now) events.now) }
    {
        for event in events {
            self.put_event(program, event)?;
            self.put(b"\n")?;
        }
        Ok(())
    }

    fn put_done(&mut self, program: &Program, value: i128) -> Result<(), AllocError>
        ensures { Appends self.old self.new result (codes "main returned"
            ++ returned_text (slice_get program.now.procs program.now.main) value) }
    {
        self.put(b"main returned")?;
        self.put_returned(program, program.main, value)
    }

    fn put_failure(&mut self, number: u32, place: LineColumn) -> Result<(), AllocError>
        ensures { Appends self.old self.new result
            (codes "assertion " ++ decimal number ++ codes " failed at "
            ++ decimal place.line ++ codes ":" ++ decimal place.column) }
    {
        self.put(b"assertion ")?;
        self.put_count(number)?;
        self.put(b" failed at ")?;
        self.put_count(place.line)?;
        self.put(b":")?;
        self.put_count(place.column)
    }

    fn put_wide(&mut self, left: i128, right: i128, op: Op) -> Result<(), AllocError>
        ensures { Appends self.old self.new result
            (codes "wide " ++ signed_decimal left ++ codes " " ++ op_text op
            ++ codes " " ++ signed_decimal right) }
    {
        self.put(b"wide ")?;
        self.put_number(left)?;
        self.put(b" ")?;
        self.put(spelling(op))?;
        self.put(b" ")?;
        self.put_number(right)
    }

    fn put_cause(
        &mut self,
        program: &Program,
        place: LineColumn,
        stop: TraceStop,
    ) -> Result<(), AllocError>
        ensures { Appends self.old self.new result (cause_text program.now place stop) }
    {
        match stop {
            TraceStop::Done(value) => self.put_done(program, value),
            TraceStop::Failed(number) => self.put_failure(number, place),
            TraceStop::Guard => self.put(b"guard"),
            TraceStop::Zero => self.put(b"division by zero"),
            TraceStop::Dry => self.put(b"no value left"),
            TraceStop::Wide { left, right, op } => self.put_wide(left, right, op),
            TraceStop::Spent => self.put(b"turns spent"),
        }
    }

    pub(crate) fn put_last_line(
        &mut self,
        program: &Program,
        place: LineColumn,
        trace: &Trace,
    ) -> Result<(), AllocError>
        ensures { Appends self.old self.new result (last_line program.now place trace.now) }
    {
        self.put(b"stopped: ")?;
        self.put_cause(program, place, trace.stop)?;
        self.put(b" after ")?;
        self.put_count(trace.steps)?;
        self.put(b" steps\n")
    }
}
