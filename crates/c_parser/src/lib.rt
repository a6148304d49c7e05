//! From the tokens of a text to its tree, by the grammar of a part of C (C11 6.5 to 6.9). `specs`
//! has the grammar: `Expressions`, `Lines` and `Declarations` say what is derived, `Reads` which
//! tree tokens read as.
#![tactic(auto)]

mod ends;
mod error;
mod expression;
mod item;
mod laws;
mod limits;
mod line;
mod parsing;
mod rank;
mod rest;
mod simple;
mod tokens;

pub use ends::ends_once;
pub use error::ParseError;
pub use laws::{
    lexed_ends_once, reading_is_not_refused, reading_is_one, readings_are_short, refusal_is_one,
    tokens_are_read_or_refused,
};
pub use limits::{MOST_BINARY_OPERATORS, MOST_LEVELS};
pub use parsing::parse;
