ghost use Rattle.std.specs.Prelude.{◌≡◌, ◌≢◌, ◌≤◌, length};
ghost use Rattle.summary_cache.specs.Accepted.{IsOutcome, TokensOrRefusal, TreeOrRefusal};
ghost use Rattle.summary_cache.specs.Limits.{most_bytes};

use crate::refusal::{Refusal, TextError};
use c_lexer::{LexError, Token, lex};
use c_parser::{ParseError, lexed_ends_once, parse};
use items::Items;
use std::alloc::Global;
use syntax_tree::{Program, Tree};
use typing::{TypeError, elaborate};

/// What a fault of the cut says of the text.
fn lexing(fault: LexError) -> TextError
    ensures memory { fault ≡ LexError.Memory → result ≡ TextError.Memory }
    ensures told { fault ≢ LexError.Memory → result ≡ TextError.Refused (Refusal.Lex fault) }
{
    match fault {
        LexError::Memory => TextError::Memory,
        _ => TextError::Refused(Refusal::Lex(fault)),
    }
}

/// What a fault of the grammar says of the text.
fn parsing(fault: ParseError) -> TextError
    ensures memory { fault ≡ ParseError.Memory → result ≡ TextError.Memory }
    ensures told { fault ≢ ParseError.Memory → result ≡ TextError.Refused (Refusal.Parse fault) }
{
    match fault {
        ParseError::Memory => TextError::Memory,
        _ => TextError::Refused(Refusal::Parse(fault)),
    }
}

/// The tokens of a text.
fn tokens_of(alloc: Global, text: &[u8]) -> Result<Items<Token>, TextError>
    requires { length text.now ≤ most_bytes }
    ensures { TokensOrRefusal text.now result }
{
    match lex(alloc, text) {
        Ok(tokens) => Ok(tokens),
        Err(fault) => Err(lexing(fault)),
    }
}

/// The tree that a text spells.
fn tree_of(alloc: Global, text: &[u8]) -> Result<Tree, TextError>
    requires { length text.now ≤ most_bytes }
    ensures { TreeOrRefusal text.now result }
{
    let tokens = tokens_of(alloc, text)?;
    lexed_ends_once();
    match parse(alloc, &tokens) {
        Ok(tree) => Ok(tree),
        Err(fault) => Err(parsing(fault)),
    }
}

/// The program of a text, or why it has none.
pub fn read(alloc: Global, text: &[u8]) -> Result<Program, TextError>
    requires { length text.now ≤ most_bytes }
    ensures { IsOutcome text.now result }
{
    let tree = tree_of(alloc, text)?;
    match elaborate(alloc, &tree, text.len() as u32) {
        Ok(program) => Ok(program),
        Err(TypeError::Memory) => Err(TextError::Memory),
        Err(fault) => Err(TextError::Refused(Refusal::Typing(fault))),
    }
}
