//! From the bytes of a text to its tokens: words, keywords, numbers and marks of C (C11 6.4), with
//! what stands between them left out, or the first fault in the order of the text.
#![tactic(auto)]

mod bytes;
mod error;
mod keyword;
mod kind;
mod laws;
mod lexing;
mod mark;
mod number;
mod piece;
mod scan;
mod token;

pub use error::LexError;
pub use keyword::Keyword;
pub use kind::TokenKind;
pub use laws::{refusal_is_one, tokens_are_not_refused, tokens_are_one, tokens_ascend};
pub use lexing::lex;
pub use mark::Mark;
pub use token::Token;

/// The most tokens of a text, its end not counted.
pub const MOST_TOKENS: usize = 200_000;
