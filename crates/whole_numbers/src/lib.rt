//! Whole numbers as the analysis computes with them: sums and products of numbers of 128 bits that
//! say where they leave these, the greatest common divisor, and quotients by a positive number. The
//! laws of the whole numbers that the library lacks stand in `proofs`.
#![tactic(auto)]

mod division;
mod wide;

pub use division::{gcd, quotient, quotient_up};
pub use wide::{Wide, product, sum};
