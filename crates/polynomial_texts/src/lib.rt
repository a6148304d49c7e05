//! Reads polynomials, rows and cases from the texts that they are written as: terms are joined by `
//! + ` and ` - `, factors by `*`; `x0` is entry column 0 and `$1` the first auxiliary. A row ends
//! in `<= 0` or `= 0`. A case is its number of auxiliaries, its rows behind bars and its posts
//! behind semicolons, as `1 | x0 - $1 <= 0 ; 2*$1`.
#![tactic(auto)]

mod error;
mod reader;
mod reading;

pub use error::PolynomialError;
pub use reader::{case, poly, row};
