ghost use Rattle.std.specs.Prelude.{◌≡◌};
ghost use Rattle.wire.specs.declared.error.Wrong.TheVariants.{Memory};

use items::Items;
use std::alloc::{AllocError, AllocFailed};

/// Why a file is not read, or an edit not made.
#[derive(Debug, PartialEq, Eq, Drop)]
pub enum WireError {
    /// The bytes are no JSON text.
    Json,
    /// The first wrong part, by its path from the root: a JSON pointer (RFC 6901).
    Shape(Items<u8>),
    /// The file's version, which is not known.
    Version(u64),
    /// The number of the first edit that cannot be made, from 1.
    Edit(u32),
    Memory,
}

/// Why a part is not read: the path of the first wrong part in it.
#[derive(Drop)]
pub(crate) enum Wrong {
    At(Items<u8>),
    Memory,
}

impl From<AllocError> for Wrong {
    ghost from_gives = { λ _ wrong. wrong ≡ Memory };

    fn from(_error: AllocError) -> Wrong {
        Wrong::Memory
    }
}

impl<T: Drop> From<AllocFailed<T>> for Wrong {
    ghost from_gives = { λ _ wrong. wrong ≡ Memory };

    fn from(_error: AllocFailed<T>) -> Wrong {
        Wrong::Memory
    }
}

impl From<Wrong> for WireError {
    ghost use Rattle.wire.specs.Errors.{whole_error};

    ghost from_gives = { λ wrong error. error ≡ whole_error wrong };

    fn from(wrong: Wrong) -> WireError {
        match wrong {
            Wrong::At(path) => WireError::Shape(path),
            Wrong::Memory => WireError::Memory,
        }
    }
}

impl From<AllocError> for WireError {
    ghost use Rattle.wire.specs.declared.error.WireError.TheVariants.{Memory};

    ghost from_gives = { λ _ error. error ≡ Memory };

    fn from(_error: AllocError) -> WireError {
        WireError::Memory
    }
}

impl<T: Drop> From<AllocFailed<T>> for WireError {
    ghost use Rattle.wire.specs.declared.error.WireError.TheVariants.{Memory};

    ghost from_gives = { λ _ error. error ≡ Memory };

    fn from(_error: AllocFailed<T>) -> WireError {
        WireError::Memory
    }
}
