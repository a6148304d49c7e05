use crate::{Keyword, Mark};
use syntax_tree::Name;

/// What a token is.
#[derive(Drop)]
pub enum TokenKind {
    Word(Name),
    Keyword(Keyword),
    /// A number, with its value.
    Number(i128),
    Mark(Mark),
    /// The end of the text.
    End,
}
