use std::alloc::{AllocError, AllocFailed};
use thiserror::Error;

/// Why tokens have no tree, with the place of the token that cannot stand where it is, as an offset
/// in bytes.
#[derive(Clone, Copy, Debug, PartialEq, Eq, Error)]
pub enum ParseError {
    /// The grammar has another token here.
    #[error("syntax at {0}")]
    Syntax(u32),
    /// The same, and the token is a mark or keyword of C that the grammar leaves out.
    #[error("unsupported at {0}")]
    Unsupported(u32),
    /// The token passes a limit of nesting or of operators.
    #[error("nested too deep at {0}")]
    Deep(u32),
    #[error("out of memory")]
    Memory,
}

impl From<AllocError> for ParseError {
    ghost use Rattle.std.specs.Prelude.{◌≡◌};
    ghost use Rattle.c_parser.specs.declared.error.ParseError.TheVariants.{Memory};

    ghost from_gives = { λ _ e. e ≡ Memory };

    fn from(_: AllocError) -> ParseError {
        ParseError::Memory
    }
}

impl<T: Drop> From<AllocFailed<T>> for ParseError {
    ghost use Rattle.std.specs.Prelude.{◌≡◌};
    ghost use Rattle.c_parser.specs.declared.error.ParseError.TheVariants.{Memory};

    ghost from_gives = { λ _ e. e ≡ Memory };

    fn from(_: AllocFailed<T>) -> ParseError {
        ParseError::Memory
    }
}
