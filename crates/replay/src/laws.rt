//! Laws of the chosen execution and of its traces. Each is the contract of a function that does
//! nothing.
ghost use Rattle.replay.specs.Laws.{ChoicesTakeValues, ChosenIsExecution, FailedStopFails, TracesAreDetermined};

/// The chosen execution is one of the program's, with as many steps.
pub fn chosen_is_an_execution()
    ensures { ChosenIsExecution }
{}

/// The choices take the first values, in order.
pub fn choices_take_values()
    ensures { ChoicesTakeValues }
{}

/// A trace that ends at a failed assertion shows that the program fails there.
pub fn failed_stop_fails()
    ensures { FailedStopFails }
{}

/// A program, values and a number of turns have one trace.
pub fn traces_are_determined()
    ensures { TracesAreDetermined }
{}
