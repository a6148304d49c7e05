use std::alloc::{AllocError, AllocFailed};
use thiserror::Error;

/// What a text has too much of. The limits are those of `syntax_tree`.
#[derive(Clone, Copy, Debug, PartialEq, Eq)]
pub enum Limited {
    Procedures,
    Parameters,
    Globals,
    Slots,
    Nodes,
    Assertions,
    Cases,
}

/// Why a tree has no program, with its place as an offset in bytes. Of several causes the one with
/// the least place is told, and of several at one place the first in this order.
#[derive(Clone, Copy, Debug, PartialEq, Eq, Error)]
pub enum TypeError {
    /// A name that means no variable, or no procedure, where one is wanted; `break` or `continue`
    /// outside a loop.
    #[error("unknown at {0}")]
    Unknown(u32),
    /// A second declaration in one scope, or the declaration of a special name.
    #[error("declared twice at {0}")]
    Twice(u32),
    /// A wrong number of arguments or parameters, a call of `main`, a value returned where none may
    /// be.
    #[error("arity at {0}")]
    Arity(u32),
    /// A call without a value where one is wanted.
    #[error("no value at {0}")]
    VoidValue(u32),
    /// A call of a procedure in the right operand of `&&` or `||`.
    #[error("misplaced call at {0}")]
    CallPlace(u32),
    /// A limit is passed.
    #[error("too many at {1}")]
    Many(Limited, u32),
    /// There is no procedure `main`; the place is the length of the text.
    #[error("no main at {0}")]
    NoMain(u32),
    #[error("out of memory")]
    Memory,
}

impl From<AllocError> for TypeError {
    ghost use Rattle.std.specs.Prelude.{◌≡◌};
    ghost use Rattle.typing.specs.declared.error.TypeError.TheVariants.{Memory};

    ghost from_gives = { λ _ e. e ≡ Memory };

    fn from(_: AllocError) -> TypeError {
        TypeError::Memory
    }
}

impl<T: Drop> From<AllocFailed<T>> for TypeError {
    ghost use Rattle.std.specs.Prelude.{◌≡◌};
    ghost use Rattle.typing.specs.declared.error.TypeError.TheVariants.{Memory};

    ghost from_gives = { λ _ e. e ≡ Memory };

    fn from(_: AllocFailed<T>) -> TypeError {
        TypeError::Memory
    }
}
