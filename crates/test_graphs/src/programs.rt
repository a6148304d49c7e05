//! Programs of C texts.
use c_lexer::lex;
use c_parser::{ends_once, parse};
use std::alloc::Global;
use syntax_tree::{Program, Tree};
use typing::elaborate;

fn tree_of(alloc: Global, text: &[u8]) -> Option<Tree> {
    match lex(alloc, text.get(..1_048_576).unwrap_or(text)) {
        Ok(tokens) if ends_once(tokens.as_slice()) => parse(alloc, tokens.as_slice()).ok(),
        _ => None,
    }
}

/// The program of a text.
pub(crate) fn program_of(alloc: Global, text: &str) -> Option<Program> {
    let length = u32::try_from(text.len()).unwrap_or(u32::MAX);
    match tree_of(alloc, text.as_bytes()) {
        Some(tree) => elaborate(alloc, &tree, length).ok(),
        None => None,
    }
}
