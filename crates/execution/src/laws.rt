//! The laws of the machine. Each is the contract of a function that does nothing.
ghost use Rattle.execution.specs.Laws.{ChangesRun, ChosenBegins, ChosenSteps, ChosenStops, ColumnsDetermineStep, FailedCheckStops, FramesBelowStay, GlobalsStay, RunsChange, RunsJoin, StepIsDetermined, StepsCanRun, StopsHaveNoStep};
ghost use Rattle.execution.specs.Examples.{BreakInNestedLoop, CallThatNeverReturns, ContinueInDo};

/// An execution that begins where another ends continues it.
pub fn executions_join()
    ensures { RunsJoin }
{}

/// A step that is no assignment of any number and no call has one outcome.
pub fn step_is_determined()
    ensures { StepIsDetermined }
{}

/// The only choice of a step is that of the values of the top frame's columns and of the globals.
pub fn columns_determine_step()
    ensures { ColumnsDetermineStep }
{}

/// A failed assertion ends the execution.
pub fn failed_check_stops()
    ensures { FailedCheckStops }
{}

/// A frame is not touched while there is one above it.
pub fn frames_below_stay()
    ensures { FramesBelowStay }
{}

/// An execution keeps the number of globals.
pub fn globals_stay()
    ensures { GlobalsStay }
{}

/// Simple statements run as they change the state one after another, and only so.
pub fn straight_lines_run()
    ensures forwards { ChangesRun }
    ensures backwards { RunsChange }
{}

/// The chosen execution of a well-formed program is one of its executions.
pub fn chosen_execution_steps()
    ensures begins { ChosenBegins }
    ensures steps { ChosenSteps }
    ensures goes_on { StepsCanRun }
{}

/// Where the chosen execution has no step, and that there is none at all unless a number is missing
/// or too wide.
pub fn chosen_execution_stops()
    ensures causes { ChosenStops }
    ensures no_step { StopsHaveNoStep }
{}

/// `continue` in a `do` loop, a `break` in a nested loop, and a call that never returns, step by
/// step.
pub fn worked_examples_run()
    ensures continues { ContinueInDo }
    ensures breaks { BreakInNestedLoop }
    ensures never_returns { CallThatNeverReturns }
{}
