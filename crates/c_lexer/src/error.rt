use std::alloc::{AllocError, AllocFailed};
use thiserror::Error;

/// Why a text has no tokens, with the place of the fault as an offset in bytes.
#[derive(Clone, Copy, Debug, PartialEq, Eq, Error)]
pub enum LexError {
    /// A byte that is not UTF-8, or that begins no token.
    #[error("no token at {0}")]
    Byte(u32),
    /// A comment that does not end.
    #[error("a comment without an end at {0}")]
    Comment(u32),
    /// A number that is none of the language.
    #[error("no number at {0}")]
    Literal(u32),
    /// The first token that is one too many.
    #[error("too many tokens at {0}")]
    TooManyTokens(u32),
    #[error("out of memory")]
    Memory,
}

impl From<AllocError> for LexError {
    ghost use Rattle.std.specs.Prelude.{◌≡◌};
    ghost use Rattle.c_lexer.specs.declared.error.LexError.TheVariants.{Memory};

    ghost from_gives = { λ _ e. e ≡ Memory };

    fn from(_: AllocError) -> LexError {
        LexError::Memory
    }
}

impl<T: Drop> From<AllocFailed<T>> for LexError {
    ghost use Rattle.std.specs.Prelude.{◌≡◌};
    ghost use Rattle.c_lexer.specs.declared.error.LexError.TheVariants.{Memory};

    ghost from_gives = { λ _ e. e ≡ Memory };

    fn from(_: AllocFailed<T>) -> LexError {
        LexError::Memory
    }
}
