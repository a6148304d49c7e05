//! Trees of texts, and where texts without one are refused.
use crate::tokens::tokens_of;
use crate::tree_text::show_item;
use c_parser::{ParseError, ends_once, lexed_ends_once, parse, reading_is_one, readings_are_short};
use row_texts::Told;
use std::alloc::Global;
use syntax_tree::{Item, Tree};

/// The tree of a text, or where it is refused. A text without tokens has none, as where memory is
/// wanting.
pub(crate) fn tree_of(alloc: Global, text: &[u8]) -> Result<Tree, ParseError> {
    match tokens_of(alloc, text) {
        Ok(tokens) if ends_once(tokens.as_slice()) => parse(alloc, tokens.as_slice()),
        _ => Err(ParseError::Memory),
    }
}

fn show_items(out: &mut Told, items: &[Item]) {
    for item in items {
        show_item(out, item);
    }
}

/// The tree, by a copy of it, which has to be equal.
fn show_tree(out: &mut Told, alloc: Global, tree: &Tree) {
    match tree.copy(alloc) {
        Ok(copy) if copy == *tree => show_items(out, copy.items.as_slice()),
        _ => out.lose(),
    }
}

fn show_fault(out: &mut Told, fault: ParseError) {
    match fault {
        ParseError::Syntax(at) => out.place("syntax ", at),
        ParseError::Unsupported(at) => out.place("unsupported ", at),
        ParseError::Deep(at) => out.place("deep ", at),
        ParseError::Memory => out.lose(),
    }
}

/// The tree of a text that has tokens, or where it is refused.
pub(crate) fn show_text(out: &mut Told, alloc: Global, text: &[u8]) {
    match tree_of(alloc, text) {
        Ok(tree) => show_tree(out, alloc, &tree),
        Err(fault) => show_fault(out, fault),
    }
}

pub(crate) fn laws() {
    reading_is_one();
    lexed_ends_once();
    readings_are_short();
}
