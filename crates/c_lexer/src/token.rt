use crate::TokenKind;

/// A token of a text: what it is, the offset of its first byte, and how many bytes it has.
#[derive(Drop)]
pub struct Token {
    pub kind: TokenKind,
    pub at: u32,
    pub len: u32,
}
