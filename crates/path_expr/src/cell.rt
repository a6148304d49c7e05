use std::alloc::{AllocError, AllocFailed};

/// What is known of the paths from one node to another.
#[derive(Clone, Copy, Debug, PartialEq, Eq, Drop)]
pub enum Cell<T> {
    /// There is none.
    Zero,
    /// The empty path is the only one.
    One,
    /// What an algebra made of them.
    Item(T),
}

/// Why a graph was not evaluated: its algebra refused an operation, or memory is wanting.
#[derive(Clone, Copy, Debug, PartialEq, Eq, Drop)]
pub enum ReachError<F> {
    Algebra(F),
    Memory,
}

impl<F> From<AllocError> for ReachError<F> {
    ghost use Rattle.std.specs.Prelude.{◌≡◌};
    ghost use Rattle.path_expr.specs.declared.cell.ReachError.TheVariants.{Memory};

    ghost from_gives = { λ _ e. e ≡ Memory };

    fn from(_: AllocError) -> ReachError<F> {
        ReachError::Memory
    }
}

impl<T: Drop, F> From<AllocFailed<T>> for ReachError<F> {
    ghost use Rattle.std.specs.Prelude.{◌≡◌};
    ghost use Rattle.path_expr.specs.declared.cell.ReachError.TheVariants.{Memory};

    ghost from_gives = { λ _ e. e ≡ Memory };

    fn from(_: AllocFailed<T>) -> ReachError<F> {
        ReachError::Memory
    }
}
