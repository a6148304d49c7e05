ghost use Rattle.std.specs.Prelude.{◌≡◌};

use items::Items;
use std::alloc::{AllocError, AllocFailed};
use syntax_tree::EvalWide;

/// What a step shows.
#[derive(Debug, PartialEq, Eq, Drop)]
pub enum Event {
    /// A procedure, by its place in the program, was called with these values.
    Call { proc: u32, args: Items<i128> },
    /// A column took this number.
    Any(i128),
    /// The assertion with this number held.
    Holds(u32),
    /// A call of a procedure ended, and returned this value.
    Return { proc: u32, value: i128 },
}

/// Why there is no step.
#[derive(Debug, Clone, Copy, PartialEq, Eq)]
pub enum Stop {
    /// The one call that is left has nothing to do, and returns this value.
    Done(i128),
    /// The assertion with this number failed.
    Failed(u32),
    /// The condition of a guard is false.
    Guard,
    /// A number is divided by 0.
    Zero,
    /// A column takes any number, and none was handed in.
    Dry,
    /// A number leaves 128 bits.
    Wide(EvalWide),
    /// Want of memory, which may come at any step.
    Memory,
}

impl From<AllocError> for Stop {
    ghost use Rattle.execution.specs.declared.outcome.Stop.TheVariants.{Memory};

    ghost from_gives = { λ _ e. e ≡ Memory };

    fn from(_error: AllocError) -> Stop {
        Stop::Memory
    }
}

impl<T: Drop> From<AllocFailed<T>> for Stop {
    ghost use Rattle.execution.specs.declared.outcome.Stop.TheVariants.{Memory};

    ghost from_gives = { λ _ e. e ≡ Memory };

    fn from(_error: AllocFailed<T>) -> Stop {
        Stop::Memory
    }
}
