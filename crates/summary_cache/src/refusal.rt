use c_lexer::LexError;
use c_parser::ParseError;
use typing::TypeError;

/// Why a text has no program: its cut into tokens, the grammar, or the first fault of its tree,
/// each with its place. No want of memory stands inside them.
#[derive(Clone, Copy, Debug, PartialEq, Eq)]
pub enum Refusal {
    Lex(LexError),
    Parse(ParseError),
    Typing(TypeError),
}

/// Why no program was read.
#[derive(Clone, Copy, Debug, PartialEq, Eq)]
pub enum TextError {
    Refused(Refusal),
    Memory,
}
