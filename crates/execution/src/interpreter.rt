ghost use Rattle.std.specs.Prelude.{◌≡◌, ◌+◌, ◌≤◌, None, Some, [], ◌∷◌, ◌++◌, IfOk, IsTrue, MatchOption, OnOk, length, map, slice_index_or, slice_set, ◌-◌, pos};
ghost use Rattle.items.specs.Gives.{Gives};
ghost use Rattle.syntax_tree.specs.Term.{term_of};
ghost use Rattle.syntax_tree.specs.Code.{code_of, statement_of};
ghost use Rattle.syntax_tree.specs.WellFormed.{IsWellFormed, all_columns_below, columns_below};
ghost use Rattle.execution.specs.Machine.{Do, Tail, Top, after_loop, config_of, pending, state_of, to_tail, with_items, with_state};
ghost use Rattle.execution.specs.Step.{at_begin, at_head, at_tail, after_return};
ghost use Rattle.execution.specs.Chosen.{after_assignment, after_call, cause, chosen_any, chosen_branch, chosen_by, chosen_call, chosen_pass, chosen_return, chosen_set, chosen_start, chosen_step, new_frame, number_in, numbers_in, quietly};
ghost use Rattle.execution.specs.Runnable.{ConfigCanRun, IsCallable, ItemCanRun, StatementCanRun};
ghost use Rattle.execution.specs.Interpreter.{Takes, frame_of, frames_of, item_of, items_of, machine_config, machine_top, parts_of};

use crate::outcome::{Event, Stop};
use items::Items;
use std::alloc::{AllocError, Global};
use syntax_tree::{Core, Program, Stmt, eval};

/// A loop that was begun.
#[derive(Clone, Copy)]
pub struct Repeat<'p> {
    pub pre: &'p [Stmt],
    pub cond: &'p Core,
    pub body: &'p [Stmt],
    pub step: &'p [Stmt],
    pub first: bool,
}

/// What a call has still to do.
#[derive(Clone, Copy)]
pub enum Task<'p> {
    Do(&'p Stmt),
    Head(Repeat<'p>),
    Test(Repeat<'p>),
    Tail(Repeat<'p>),
}

/// A call that has not returned. The next of its tasks is the last.
#[derive(Drop)]
pub struct Activation<'p> {
    pub proc: u32,
    pub own: Items<i128>,
    pub tasks: Items<Task<'p>>,
    pub into: Option<u32>,
}

/// A program as it runs. The call on top is the last.
#[derive(Drop)]
pub struct Machine<'p> {
    pub globals: Items<i128>,
    pub calls: Items<Activation<'p>>,
}

// The statements are done before what is left.
#[tactic(auto, using(crate::proofs::Tasks::tasks))]
fn push_code<'p>(tasks: &mut Items<Task<'p>>, code: &'p [Stmt]) -> Result<(), AllocError>
    ensures { OnOk result (items_of tasks.new ≡ pending (code_of code.now) (items_of tasks.old)) }
{
    let mut left = code.len();
    while left > 0 {
        left -= 1;
        tasks.push(Task::Do(&code[left]))?;
    }
    Ok(())
}

// Takes what is left of a body away, and the end of the loop too. Where there is no loop, nothing
// is left.
#[tactic(auto, using(crate::proofs::Tasks::tasks))]
fn pop_to_tail<'p>(tasks: &mut Items<Task<'p>>) -> Option<Repeat<'p>>
    ensures left { items_of tasks.new ≡ after_loop (items_of tasks.old) }
    ensures tail { MatchOption result
        ((to_tail (items_of tasks.old) ≡ []) × (items_of tasks.new ≡ []))
        (λ r. to_tail (items_of tasks.old) ≡ Tail (parts_of r) ∷ items_of tasks.new) }
{
    while let Some(task) = tasks.pop() {
        if let Task::Tail(repeat) = task {
            return Some(repeat);
        }
    }
    None
}

fn columns(alloc: Global, globals: &Items<i128>, own: &Items<i128>) -> Result<Vec<i128>, AllocError>
    ensures { IfOk result (λ s. s.items ≡ globals.now ++ own.now) }
{
    let mut state = Vec::from_slice(alloc, globals.as_slice())?;
    state.extend_from_slice(own.as_slice())?;
    Ok(state)
}

fn value(e: &Core, state: &[i128]) -> Result<i128, Stop>
    requires { IsTrue (columns_below (length state.now) (term_of e.now)) }
    ensures { result ≡ number_in (term_of e.now) state.now }
{
    match eval(e, state) {
        Ok(Some(value)) => Ok(value),
        Ok(None) => Err(Stop::Zero),
        Err(wide) => Err(Stop::Wide(wide)),
    }
}

#[tactic(auto, using(crate::proofs::Numbers::values, crate::proofs::Numbers::stops))]
fn values(alloc: Global, args: &[Core], state: &[i128]) -> Result<Items<i128>, Stop>
    requires { IsTrue (all_columns_below (length state.now) (map term_of args.now)) }
    ensures { Gives cause (λ vs. vs) result (numbers_in (map term_of args.now) state.now) }
{
    let mut all = Items::new(alloc);
    for e in args {
        all.push(value(e, state)?)?;
    }
    Ok(all)
}

// The number of an expression at these columns.
fn number_at(
    alloc: Global,
    globals: &Items<i128>,
    own: &Items<i128>,
    e: &Core,
) -> Result<i128, Stop>
    requires { IsTrue (columns_below (length globals.now + length own.now) (term_of e.now)) }
    ensures { Gives cause (λ v. v) result (number_in (term_of e.now) (globals.now ++ own.now)) }
{
    let state = columns(alloc, globals, own)?;
    value(e, state.as_slice())
}

// The numbers of several expressions at these columns.
fn numbers_at(
    alloc: Global,
    globals: &Items<i128>,
    own: &Items<i128>,
    args: &[Core],
) -> Result<Items<i128>, Stop>
    requires { IsTrue
        (all_columns_below (length globals.now + length own.now) (map term_of args.now)) }
    ensures { Gives cause (λ vs. vs) result
        (numbers_in (map term_of args.now) (globals.now ++ own.now)) }
{
    let state = columns(alloc, globals, own)?;
    values(alloc, args, state.as_slice())
}

// Puts a call with these tasks on top.
#[tactic(auto, using(crate::proofs::Tasks::tasks))]
fn resume<'p>(machine: &mut Machine<'p>, call: Activation<'p>) -> Result<(), AllocError>
    ensures { OnOk result
        (machine_config machine.new ≡ config_of (machine_top machine.old call.entry)) }
{
    machine.calls.push(call)?;
    Ok(())
}

// The same, where that is the whole step, which shows nothing.
fn go_on<'p>(machine: &mut Machine<'p>, call: Activation<'p>) -> Result<Option<Event>, Stop>
    ensures { Takes machine.new result (quietly (config_of (machine_top machine.old call.entry))) }
{
    resume(machine, call)?;
    Ok(None)
}

// The call goes on with these statements before its tasks.
fn go_on_with<'p>(
    machine: &mut Machine<'p>,
    call: Activation<'p>,
    code: &'p [Stmt],
) -> Result<Option<Event>, Stop>
    ensures { Takes machine.new result (quietly
        (with_items (machine_top machine.old call.entry)
        (pending (code_of code.now) (items_of call.entry.tasks)))) }
{
    let mut call = call;
    push_code(&mut call.tasks, code)?;
    go_on(machine, call)
}

#[tactic(auto, using(crate::proofs::Tasks::tasks))]
fn begin_loop<'p>(tasks: &mut Items<Task<'p>>, repeat: Repeat<'p>) -> Result<(), AllocError>
    ensures { OnOk result
        (items_of tasks.new ≡ at_begin (parts_of repeat.entry) (items_of tasks.old)) }
{
    if repeat.first {
        tasks.push(Task::Tail(repeat))?;
        push_code(tasks, repeat.body)
    } else {
        tasks.push(Task::Head(repeat))?;
        Ok(())
    }
}

#[tactic(auto, using(crate::proofs::Tasks::tasks))]
fn head_loop<'p>(tasks: &mut Items<Task<'p>>, repeat: Repeat<'p>) -> Result<(), AllocError>
    ensures { OnOk result
        (items_of tasks.new ≡ at_head (parts_of repeat.entry) (items_of tasks.old)) }
{
    tasks.push(Task::Test(repeat))?;
    push_code(tasks, repeat.pre)
}

#[tactic(auto, using(crate::proofs::Tasks::tasks))]
fn enter_body<'p>(tasks: &mut Items<Task<'p>>, repeat: Repeat<'p>) -> Result<(), AllocError>
    ensures { OnOk result (items_of tasks.new ≡
        pending (parts_of repeat.entry).body (Tail (parts_of repeat.entry) ∷ items_of tasks.old)) }
{
    tasks.push(Task::Tail(repeat))?;
    push_code(tasks, repeat.body)
}

#[tactic(auto, using(crate::proofs::Tasks::tasks))]
fn tail_loop<'p>(tasks: &mut Items<Task<'p>>, repeat: Repeat<'p>) -> Result<(), AllocError>
    ensures { OnOk result
        (items_of tasks.new ≡ at_tail (parts_of repeat.entry) (items_of tasks.old)) }
{
    if repeat.first {
        return head_loop(tasks, repeat);
    }
    tasks.push(Task::Head(repeat))?;
    push_code(tasks, repeat.step)
}

fn assign(state: &mut Vec<i128>, col: u32, value: i128)
    ensures { state.new.items ≡ slice_set state.old.items col value }
{
    if (col as usize) < state.len() {
        state[col as usize] = value;
    }
}

// The values of all columns go back to the globals and to the call, which is put on top.
fn spread<'p>(
    alloc: Global,
    machine: &mut Machine<'p>,
    call: Activation<'p>,
    state: &[i128],
) -> Result<(), AllocError>
    requires { length machine.old.globals ≤ length state.now }
    ensures { OnOk result (machine_config machine.new ≡
        with_state (machine_top machine.old call.entry) state.now (items_of call.entry.tasks)) }
{
    let width = machine.globals.len();
    let Activation {
        proc,
        own: _,
        tasks,
        into,
    } = call;
    let own = Items::from_slice(alloc, &state[width..])?;
    machine.globals = Items::from_slice(alloc, &state[..width])?;
    resume(
        machine,
        Activation {
            proc,
            own,
            tasks,
            into,
        },
    )
}

// The column has another number.
fn store<'p>(
    alloc: Global,
    machine: &mut Machine<'p>,
    call: Activation<'p>,
    col: u32,
    value: i128,
) -> Result<(), AllocError>
    ensures { OnOk result (machine_config machine.new ≡
        after_assignment (machine_top machine.old call.entry) (items_of call.entry.tasks) col value) }
{
    let mut state = columns(alloc, &machine.globals, &call.own)?;
    assign(&mut state, col, value);
    spread(alloc, machine, call, state.as_slice())
}

fn set_column<'p>(
    alloc: Global,
    machine: &mut Machine<'p>,
    call: Activation<'p>,
    col: u32,
    e: &Core,
) -> Result<Option<Event>, Stop>
    requires { IsTrue
        (columns_below (length machine.old.globals + length call.own) (term_of e.now)) }
    ensures { Takes machine.new result
        (chosen_set (machine_top machine.old call.entry) (items_of call.entry.tasks) col
        (term_of e.now)) }
{
    let number = number_at(alloc, &machine.globals, &call.own, e)?;
    store(alloc, machine, call, col, number)?;
    Ok(None)
}

fn any_column<'p>(
    alloc: Global,
    machine: &mut Machine<'p>,
    call: Activation<'p>,
    col: u32,
    number: Option<i128>,
) -> Result<Option<Event>, Stop>
    ensures { Takes machine.new result
        (chosen_any number (machine_top machine.old call.entry) (items_of call.entry.tasks) col) }
{
    match number {
        Some(number) => {
            store(alloc, machine, call, col, number)?;
            Ok(Some(Event::Any(number)))
        }
        None => Err(Stop::Dry),
    }
}

// Goes on where the condition is true, and shows an event.
fn pass<'p>(
    alloc: Global,
    machine: &mut Machine<'p>,
    call: Activation<'p>,
    cond: &Core,
    shown: Option<Event>,
    otherwise: Stop,
) -> Result<Option<Event>, Stop>
    requires { IsTrue
        (columns_below (length machine.old.globals + length call.own) (term_of cond.now)) }
    ensures { Takes machine.new result
        (chosen_pass shown otherwise (machine_top machine.old call.entry)
        (items_of call.entry.tasks) (term_of cond.now)) }
{
    if number_at(alloc, &machine.globals, &call.own, cond)? == 0 {
        return Err(otherwise);
    }
    resume(machine, call)?;
    Ok(shown)
}

// A new frame of a procedure.
fn enter<'p>(
    alloc: Global,
    program: &'p Program,
    proc: u32,
    args: Items<i128>,
    into: Option<u32>,
) -> Result<Activation<'p>, AllocError>
    requires { IsCallable program.now proc (length args) }
    ensures { IfOk result (λ call. frame_of call ≡ new_frame program.now proc args into) }
{
    let callee = &program.procs.as_slice()[proc as usize];
    let width = callee.columns.len() + 1;
    let mut own = args;
    while own.len() < width {
        own.push(0)?;
    }
    let mut tasks = Items::new(alloc);
    push_code(&mut tasks, callee.body.as_slice())?;
    Ok(Activation {
        proc,
        own,
        tasks,
        into,
    })
}

// A call with these arguments is put on top of the call that makes it.
fn put_callee<'p>(
    alloc: Global,
    program: &'p Program,
    machine: &mut Machine<'p>,
    call: Activation<'p>,
    proc: u32,
    args: Items<i128>,
    into: Option<u32>,
) -> Result<(), AllocError>
    requires { IsCallable program.now proc (length args) }
    ensures { OnOk result (machine_config machine.new ≡
        after_call program.now proc into (machine_top machine.old call.entry)
        (items_of call.entry.tasks) args) }
{
    let callee = enter(alloc, program, proc, args, into)?;
    resume(machine, call)?;
    resume(machine, callee)
}

fn enter_call<'p>(
    alloc: Global,
    program: &'p Program,
    machine: &mut Machine<'p>,
    call: Activation<'p>,
    proc: u32,
    args: &[Core],
    into: Option<u32>,
) -> Result<Option<Event>, Stop>
    requires below { IsTrue
        (all_columns_below (length machine.old.globals + length call.own) (map term_of args.now)) }
    requires callee { IsCallable program.now proc (length args.now) }
    ensures { Takes machine.new result
        (chosen_call program.now (machine_top machine.old call.entry) (items_of call.entry.tasks)
        proc (map term_of args.now) into) }
{
    let values = numbers_at(alloc, &machine.globals, &call.own, args)?;
    let shown = Items::from_slice(alloc, values.as_slice())?;
    put_callee(alloc, program, machine, call, proc, values, into)?;
    Ok(Some(Event::Call { proc, args: shown }))
}

// The call goes on with one list of statements or the other before its tasks.
fn branch<'p>(
    alloc: Global,
    machine: &mut Machine<'p>,
    call: Activation<'p>,
    cond: &Core,
    yes: &'p [Stmt],
    no: &'p [Stmt],
) -> Result<Option<Event>, Stop>
    requires { IsTrue
        (columns_below (length machine.old.globals + length call.own) (term_of cond.now)) }
    ensures { Takes machine.new result (chosen_branch (machine_top machine.old call.entry)
        (pending (code_of yes.now) (items_of call.entry.tasks))
        (pending (code_of no.now) (items_of call.entry.tasks)) (term_of cond.now)) }
{
    if number_at(alloc, &machine.globals, &call.own, cond)? != 0 {
        go_on_with(machine, call, yes)
    } else {
        go_on_with(machine, call, no)
    }
}

fn turn_loop<'p>(
    machine: &mut Machine<'p>,
    call: Activation<'p>,
    repeat: Repeat<'p>,
) -> Result<Option<Event>, Stop>
    ensures { Takes machine.new result (quietly (with_items (machine_top machine.old call.entry)
        (pending (parts_of repeat.entry).body
        (Tail (parts_of repeat.entry) ∷ items_of call.entry.tasks)))) }
{
    let mut call = call;
    enter_body(&mut call.tasks, repeat)?;
    go_on(machine, call)
}

fn test_loop<'p>(
    alloc: Global,
    machine: &mut Machine<'p>,
    call: Activation<'p>,
    repeat: Repeat<'p>,
) -> Result<Option<Event>, Stop>
    requires { IsTrue
        (columns_below (length machine.old.globals + length call.own) (parts_of repeat).cond) }
    ensures { Takes machine.new result (chosen_branch (machine_top machine.old call.entry)
        (pending (parts_of repeat.entry).body
        (Tail (parts_of repeat.entry) ∷ items_of call.entry.tasks)) (items_of call.entry.tasks)
        (parts_of repeat.entry).cond) }
{
    if number_at(alloc, &machine.globals, &call.own, repeat.cond)? != 0 {
        turn_loop(machine, call, repeat)
    } else {
        go_on(machine, call)
    }
}

#[tactic(auto, using(crate::proofs::Tasks::leaves))]
fn leave_loop<'p>(machine: &mut Machine<'p>, call: Activation<'p>) -> Result<Option<Event>, Stop>
    ensures { Takes machine.new result
        (quietly (with_items (machine_top machine.old call.entry)
        (after_loop (items_of call.entry.tasks)))) }
{
    let mut call = call;
    let _left = pop_to_tail(&mut call.tasks);
    go_on(machine, call)
}

#[tactic(auto, using(crate::proofs::Tasks::leaves))]
fn next_turn<'p>(machine: &mut Machine<'p>, call: Activation<'p>) -> Result<Option<Event>, Stop>
    ensures { Takes machine.new result
        (quietly (with_items (machine_top machine.old call.entry)
        (to_tail (items_of call.entry.tasks)))) }
{
    let mut call = call;
    if let Some(repeat) = pop_to_tail(&mut call.tasks) {
        call.tasks.push(Task::Tail(repeat))?;
    }
    go_on(machine, call)
}

fn leave_call<'p>(
    alloc: Global,
    machine: &mut Machine<'p>,
    call: Activation<'p>,
) -> Result<Option<Event>, Stop>
    ensures { Takes machine.new result
        (quietly (with_items (machine_top machine.old call.entry) [])) }
{
    let Activation {
        proc,
        own,
        tasks: _,
        into,
    } = call;
    let tasks = Items::new(alloc);
    go_on(
        machine,
        Activation {
            proc,
            own,
            tasks,
            into,
        },
    )
}

fn start_loop<'p>(
    machine: &mut Machine<'p>,
    call: Activation<'p>,
    repeat: Repeat<'p>,
) -> Result<Option<Event>, Stop>
    ensures { Takes machine.new result (quietly
        (with_items (machine_top machine.old call.entry)
        (at_begin (parts_of repeat.entry) (items_of call.entry.tasks)))) }
{
    let mut call = call;
    begin_loop(&mut call.tasks, repeat)?;
    go_on(machine, call)
}

// A call goes on, and its column gets the value that was returned, if it awaits one.
fn take_value<'p>(
    alloc: Global,
    machine: &mut Machine<'p>,
    call: Activation<'p>,
    into: Option<u32>,
    value: i128,
) -> Result<(), AllocError>
    ensures { OnOk result
        (machine_config machine.new ≡ after_return into value (machine_top machine.old call.entry)) }
{
    match into {
        None => resume(machine, call),
        Some(col) => store(alloc, machine, call, col, value),
    }
}

// The call has nothing left to do, and its value goes back to its caller.
#[tactic(auto, using(crate::proofs::Tasks::tasks))]
fn go_back<'p>(
    alloc: Global,
    machine: &mut Machine<'p>,
    call: Activation<'p>,
) -> Result<Option<Event>, Stop>
    ensures { Takes machine.new result
        (chosen_return (machine_top machine.old call.entry) (frames_of machine.old.calls)) }
{
    let Activation {
        proc,
        own,
        tasks: _,
        into,
    } = call;
    let value = last_or_zero(own.as_slice());
    let Some(caller) = machine.calls.pop() else {
        return Err(Stop::Done(value));
    };
    take_value(alloc, machine, caller, into, value)?;
    Ok(Some(Event::Return { proc, value }))
}

fn last_or_zero(numbers: &[i128]) -> i128
    ensures { result ≡ slice_index_or numbers.now (length numbers.now - 1) (pos 0) }
{
    match numbers {
        [.., last] => *last,
        [] => 0,
    }
}

// One statement of a call, which is not among its tasks any more.
#[tactic(auto, using(syntax_tree::proofs::Codes::statements))]
fn do_stmt<'p>(
    alloc: Global,
    program: &'p Program,
    machine: &mut Machine<'p>,
    call: Activation<'p>,
    stmt: &'p Stmt,
    number: Option<i128>,
) -> Result<Option<Event>, Stop>
    requires { StatementCanRun program.now (length machine.old.globals + length call.own)
        (statement_of stmt.now) }
    ensures { Takes machine.new result
        (chosen_by program.now number (machine_top machine.old call.entry)
        (Do (statement_of stmt.now) ∷ items_of call.entry.tasks)) }
{
    match stmt {
        Stmt::Set { col, value } => set_column(alloc, machine, call, *col, value),
        Stmt::Any { col } => any_column(alloc, machine, call, *col, number),
        Stmt::Guard { cond } => pass(alloc, machine, call, cond, None, Stop::Guard),
        Stmt::Check { number, cond } => pass(
            alloc,
            machine,
            call,
            cond,
            Some(Event::Holds(*number)),
            Stop::Failed(*number),
        ),
        Stmt::Call { proc, args, into } => enter_call(
            alloc,
            program,
            machine,
            call,
            *proc,
            args.as_slice(),
            *into,
        ),
        Stmt::If { cond, yes, no } => branch(
            alloc,
            machine,
            call,
            cond,
            yes.as_slice(),
            no.as_slice(),
        ),
        Stmt::Loop {
            pre,
            cond,
            body,
            step,
            first,
        } => start_loop(
            machine,
            call,
            Repeat {
                pre: pre.as_slice(),
                cond,
                body: body.as_slice(),
                step: step.as_slice(),
                first: *first,
            },
        ),
        Stmt::Break => leave_loop(machine, call),
        Stmt::Continue => next_turn(machine, call),
        Stmt::Return => leave_call(alloc, machine, call),
    }
}

fn do_task<'p>(
    alloc: Global,
    program: &'p Program,
    machine: &mut Machine<'p>,
    call: Activation<'p>,
    task: Task<'p>,
    number: Option<i128>,
) -> Result<Option<Event>, Stop>
    requires { ItemCanRun program.now (length machine.old.globals + length call.own)
        (item_of task) }
    ensures { Takes machine.new result
        (chosen_by program.now number (machine_top machine.old call.entry)
        (item_of task.entry ∷ items_of call.entry.tasks)) }
{
    let mut call = call;
    match task {
        Task::Do(stmt) => do_stmt(alloc, program, machine, call, stmt, number),
        Task::Head(repeat) => {
            head_loop(&mut call.tasks, repeat)?;
            go_on(machine, call)
        }
        Task::Test(repeat) => test_loop(alloc, machine, call, repeat),
        Task::Tail(repeat) => {
            tail_loop(&mut call.tasks, repeat)?;
            go_on(machine, call)
        }
    }
}

impl<'p> Machine<'p> {
    /// A program as `main` begins: its globals have their initial values, and its columns are 0.
    pub fn start(alloc: Global, program: &'p Program) -> Result<Machine<'p>, AllocError>
        requires { IsWellFormed program.now }
        ensures { IfOk result (λ machine. machine_config machine ≡ chosen_start program.now) }
    {
        let mut globals = Items::new(alloc);
        for global in program.globals.as_slice() {
            globals.push(global.init)?;
        }
        let call = enter(alloc, program, program.main, Items::new(alloc), None)?;
        let mut machine = Machine {
            globals,
            calls: Items::new(alloc),
        };
        resume(&mut machine, call)?;
        Ok(machine)
    }

    /// The chosen step, and what it shows. An error says why there is none, and the machine is of
    /// no more use then.
    #[tactic(auto, using(crate::proofs::Tasks::stepping))]
    pub fn step(
        &mut self,
        alloc: Global,
        program: &'p Program,
        number: Option<i128>,
    ) -> Result<Option<Event>, Stop>
        requires well_formed { IsWellFormed program.now }
        requires fits { ConfigCanRun program.now (machine_config self.old) }
        ensures { Takes self.new result (chosen_step program.now number (machine_config self.old)) }
    {
        let Some(mut call) = self.calls.pop() else {
            return Err(Stop::Done(0));
        };
        match call.tasks.pop() {
            Some(task) => do_task(alloc, program, self, call, task, number),
            None => go_back(alloc, self, call),
        }
    }
}
