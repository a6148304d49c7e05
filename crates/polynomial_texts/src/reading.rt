use crate::PolynomialError;
use linear_terms::{Poly, TermError};
use std::alloc::Global;

/// The first fault of what is read. Where a part is none, 0 stands in its place, so a reader of
/// several parts has one end.
#[derive(Drop)]
pub(crate) struct Reading {
    alloc: Global,
    fault: Option<PolynomialError>,
}

impl Reading {
    pub(crate) fn new(alloc: Global) -> Reading {
        Reading { alloc, fault: None }
    }

    pub(crate) fn alloc(&self) -> Global {
        self.alloc
    }

    pub(crate) fn fault(&self) -> Option<PolynomialError> {
        self.fault
    }

    /// Notes a fault, if it is the first.
    pub(crate) fn fail(&mut self, fault: PolynomialError) {
        if self.fault.is_none() {
            self.fault = Some(fault);
        }
    }

    /// Zero, in place of what is none.
    pub(crate) fn zero_at_fault(&mut self) -> Poly {
        self.fail(PolynomialError::Malformed);
        Poly::constant(self.alloc, 0)
    }

    pub(crate) fn number(&mut self, text: &str) -> u32 {
        match text.parse::<u32>() {
            Ok(number) => number,
            Err(_) => {
                self.fail(PolynomialError::Malformed);
                0
            }
        }
    }

    /// The number of an auxiliary, of which the first is written as 1.
    pub(crate) fn auxiliary(&mut self, text: &str) -> u32 {
        match self.number(text).checked_sub(1) {
            Some(number) => number,
            None => {
                self.fail(PolynomialError::Malformed);
                0
            }
        }
    }

    pub(crate) fn constant(&mut self, text: &str) -> Poly {
        match text.parse::<i128>() {
            Ok(number) => Poly::constant(self.alloc, number),
            Err(_) => self.zero_at_fault(),
        }
    }

    /// What an operation made.
    pub(crate) fn value_of(&mut self, made: Result<Poly, TermError>) -> Poly {
        match made {
            Ok(poly) => poly,
            Err(fault) => {
                self.fail(PolynomialError::Term(fault));
                Poly::constant(self.alloc, 0)
            }
        }
    }
}
