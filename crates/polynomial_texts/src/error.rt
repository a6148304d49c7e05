use linear_terms::TermError;
use std::alloc::{AllocError, AllocFailed};
use std::num::ParseIntError;

/// Why a text is not read.
#[derive(Clone, Copy, Debug, PartialEq, Eq)]
pub enum PolynomialError {
    /// It is no polynomial, row or case.
    Malformed,
    /// A number leaves 128 bits, or a product has more than four columns.
    Term(TermError),
    Memory,
}

impl From<TermError> for PolynomialError {
    fn from(e: TermError) -> PolynomialError {
        PolynomialError::Term(e)
    }
}

impl From<ParseIntError> for PolynomialError {
    fn from(_e: ParseIntError) -> PolynomialError {
        PolynomialError::Malformed
    }
}

impl From<AllocError> for PolynomialError {
    fn from(_e: AllocError) -> PolynomialError {
        PolynomialError::Memory
    }
}

impl<T: Drop> From<AllocFailed<T>> for PolynomialError {
    fn from(_e: AllocFailed<T>) -> PolynomialError {
        PolynomialError::Memory
    }
}
