//! What texts are cut into, and where they are refused. A token is told by a letter (`w` a word,
//! `k` a keyword, `m` a mark, `e` the end) or by its number and `@`, its place and its length.
use c_lexer::{
    LexError, Token, TokenKind, lex, refusal_is_one, tokens_are_not_refused, tokens_are_one,
    tokens_ascend,
};
use items::Items;
use row_texts::Told;
use std::alloc::Global;

fn show_kind(out: &mut Told, kind: &TokenKind) {
    match kind {
        TokenKind::Word(_) => out.word("w"),
        TokenKind::Keyword(_) => out.word("k"),
        TokenKind::Number(value) => {
            out.number(*value);
            out.word("@");
        }
        TokenKind::Mark(_) => out.word("m"),
        TokenKind::End => out.word("e"),
    }
}

fn show_tokens(out: &mut Told, tokens: &[Token]) {
    for token in tokens {
        show_kind(out, &token.kind);
        out.place("", token.at);
        out.place("+", token.len);
        out.word(" ");
    }
}

fn show_fault(out: &mut Told, fault: LexError) {
    match fault {
        LexError::Byte(at) => out.place("byte ", at),
        LexError::Comment(at) => out.place("comment ", at),
        LexError::Literal(at) => out.place("literal ", at),
        LexError::TooManyTokens(at) => out.place("tokens ", at),
        LexError::Memory => out.lose(),
    }
}

/// The tokens of the first 1,048,576 bytes of a text.
pub(crate) fn tokens_of(alloc: Global, text: &[u8]) -> Result<Items<Token>, LexError> {
    lex(alloc, text.get(..1_048_576).unwrap_or(text))
}

/// The tokens of a text, or why it is refused.
pub(crate) fn show_text(out: &mut Told, alloc: Global, text: &[u8]) {
    match tokens_of(alloc, text) {
        Ok(tokens) => show_tokens(out, tokens.as_slice()),
        Err(fault) => show_fault(out, fault),
    }
}

/// How many tokens a text has.
pub(crate) fn show_length(out: &mut Told, alloc: Global, text: &[u8]) {
    match tokens_of(alloc, text) {
        Ok(tokens) => {
            out.number(tokens.len() as i128);
            out.word(" tokens");
        }
        Err(_) => out.lose(),
    }
}

pub(crate) fn laws() {
    tokens_are_one();
    tokens_are_not_refused();
    refusal_is_one();
    tokens_ascend();
}
