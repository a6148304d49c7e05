use crate::algebra::Algebra;
use crate::path::{Path, either, sequence, turns};
use std::alloc::{AllocError, AllocFailed, Global};

/// Why a path expression was not made.
#[derive(Clone, Copy, Debug, PartialEq, Eq)]
pub enum PathError {
    Memory,
}

impl From<AllocError> for PathError {
    ghost use Rattle.std.specs.Prelude.{◌≡◌};
    ghost use Rattle.path_expr.specs.declared.plain_paths.PathError.TheVariants.{Memory};

    ghost from_gives = { λ _ e. e ≡ Memory };

    fn from(_: AllocError) -> PathError {
        PathError::Memory
    }
}

impl<T: Drop> From<AllocFailed<T>> for PathError {
    ghost use Rattle.std.specs.Prelude.{◌≡◌};
    ghost use Rattle.path_expr.specs.declared.plain_paths.PathError.TheVariants.{Memory};

    ghost from_gives = { λ _ e. e ≡ Memory };

    fn from(_: AllocFailed<T>) -> PathError {
        PathError::Memory
    }
}

/// The algebra whose items are the path expressions themselves.
#[derive(Drop)]
pub struct PlainPaths;

impl Algebra for PlainPaths {
    ghost use Rattle.std.specs.Prelude.{◌≡◌, true};
    ghost use Rattle.path_expr.specs.Path.{path_of};

    type Item = Path;

    type Fault = PathError;

    ghost fits = { λ _ path item. path_of item ≡ path };

    ghost spans = { λ _ _ _ _. Unit {0} };

    ghost ends = { λ _ _ _ _. Unit {0} };

    ghost is_memory = { λ _. true };

    ghost faults = { λ _. 0 };

    ghost made = { λ _ _. Unit {0} };

    ghost stopped = { λ _ _. Unit {0} };

    fn edge(&mut self, _alloc: Global, number: u32) -> Result<Path, PathError> {
        Ok(Path::Edge(number))
    }

    fn seq(&mut self, alloc: Global, first: &Path, second: &Path) -> Result<Path, PathError> {
        let first = first.copy(alloc)?;
        let second = second.copy(alloc)?;
        Ok(sequence(alloc, first, second)?)
    }

    fn join(&mut self, alloc: Global, left: &Path, right: &Path) -> Result<Path, PathError> {
        let left = left.copy(alloc)?;
        let right = right.copy(alloc)?;
        Ok(either(alloc, left, right)?)
    }

    fn star(&mut self, alloc: Global, turn: &Path) -> Result<Path, PathError> {
        let turn = turn.copy(alloc)?;
        Ok(turns(alloc, turn)?)
    }

    fn copy(&mut self, alloc: Global, item: &Path) -> Result<Path, PathError> {
        Ok(item.copy(alloc)?)
    }
}
