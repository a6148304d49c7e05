use std::alloc::{AllocError, AllocFailed};

/// Why there is no graph.
#[derive(Debug, Clone, Copy, PartialEq, Eq)]
pub enum GraphError {
    /// Memory was wanting.
    Memory,
}

impl From<AllocError> for GraphError {
    ghost use Rattle.std.specs.Prelude.{◌≡◌};
    ghost use Rattle.flow_graph.specs.declared.error.GraphError.TheVariants.{Memory};

    ghost from_gives = { λ _ e. e ≡ Memory };

    fn from(_: AllocError) -> GraphError {
        GraphError::Memory
    }
}

impl<T: Drop> From<AllocFailed<T>> for GraphError {
    ghost use Rattle.std.specs.Prelude.{◌≡◌};
    ghost use Rattle.flow_graph.specs.declared.error.GraphError.TheVariants.{Memory};

    ghost from_gives = { λ _ e. e ≡ Memory };

    fn from(_: AllocFailed<T>) -> GraphError {
        GraphError::Memory
    }
}
