ghost use Rattle.std.specs.Prelude.{◌≡◌, ◌≤◌, IfOk, length};
ghost use Rattle.summary_cache.specs.Limits.{most_bytes};
ghost use Rattle.commands.specs.Refused.{lexing_line, limited_word, parsing_line, refusal_line, refusal_text, typing_line};

use crate::text::ReplyText;
use c_lexer::LexError;
use c_parser::ParseError;
use std::alloc::{AllocError, Global};
use summary_cache::{Refusal, column_at, line_at};
use typing::{Limited, TypeError};

fn lexing_line(fault: LexError) -> (&'static [u8], u32)
    ensures word { result.0.now ≡ (lexing_line fault).word }
    ensures place { result.1 ≡ (lexing_line fault).at }
{
    match fault {
        LexError::Byte(at) => (b"byte", at),
        LexError::Comment(at) => (b"comment", at),
        LexError::Literal(at) => (b"literal", at),
        LexError::TooManyTokens(at) => (b"tokens", at),
        LexError::Memory => (b"", 0),
    }
}

fn parsing_line(fault: ParseError) -> (&'static [u8], u32)
    ensures word { result.0.now ≡ (parsing_line fault).word }
    ensures place { result.1 ≡ (parsing_line fault).at }
{
    match fault {
        ParseError::Syntax(at) => (b"syntax", at),
        ParseError::Unsupported(at) => (b"unsupported", at),
        ParseError::Deep(at) => (b"deep", at),
        ParseError::Memory => (b"", 0),
    }
}

fn limited_word(what: Limited) -> &'static [u8]
    ensures { result.now ≡ limited_word what }
{
    match what {
        Limited::Procedures => b"many procedures",
        Limited::Parameters => b"many parameters",
        Limited::Globals => b"many globals",
        Limited::Slots => b"many slots",
        Limited::Nodes => b"many nodes",
        Limited::Assertions => b"many assertions",
        Limited::Cases => b"many cases",
    }
}

fn typing_line(fault: TypeError) -> (&'static [u8], u32)
    ensures word { result.0.now ≡ (typing_line fault).word }
    ensures place { result.1 ≡ (typing_line fault).at }
{
    match fault {
        TypeError::Unknown(at) => (b"unknown", at),
        TypeError::Twice(at) => (b"twice", at),
        TypeError::Arity(at) => (b"arity", at),
        TypeError::VoidValue(at) => (b"void", at),
        TypeError::CallPlace(at) => (b"place", at),
        TypeError::Many(what, at) => (limited_word(what), at),
        TypeError::NoMain(at) => (b"main", at),
        TypeError::Memory => (b"", 0),
    }
}

/// The word that tells why a text is refused, and its place in the text.
fn refusal_line(refusal: Refusal) -> (&'static [u8], u32)
    ensures word { result.0.now ≡ (refusal_line refusal).word }
    ensures place { result.1 ≡ (refusal_line refusal).at }
{
    match refusal {
        Refusal::Lex(fault) => lexing_line(fault),
        Refusal::Parse(fault) => parsing_line(fault),
        Refusal::Typing(fault) => typing_line(fault),
    }
}

/// The line that tells why a text is refused.
pub fn refusal_text(alloc: Global, text: &[u8], refusal: Refusal) -> Result<Vec<u8>, AllocError>
    requires { length text.now ≤ most_bytes }
    ensures { IfOk result (λ line. line.items ≡ refusal_text text.now (refusal_line refusal)) }
{
    let (word, at) = refusal_line(refusal);
    let mut line = ReplyText {
        bytes: Vec::new(alloc),
    };
    line.put(b"refused ")?;
    line.put(word)?;
    line.put(b" at ")?;
    line.put_count(line_at(text, at) as u128)?;
    line.put(b":")?;
    line.put_count(column_at(text, at) as u128)?;
    line.put(b"\n")?;
    let ReplyText { bytes } = line;
    Ok(bytes)
}
