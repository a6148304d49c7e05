ghost use Rattle.std.specs.Prelude.{◌≡◌, ◌<◌, ◌≤◌, ◌^◌, length, true, pos, ◌≢◌, IfOk, IfErr, take};
ghost use Rattle.c_lexer.specs.Kinds.{Spells, is_word_shape};
ghost use Rattle.c_lexer.specs.Scanned.{IsFront, IsWhy, refusal_at};
ghost use Rattle.c_lexer.specs.Tokens.{IsCut};
ghost use Rattle.c_lexer.specs.Refusals.{Stops, TakesMemory};

use crate::keyword::keyword_of;
use crate::piece::{FoundPiece, PieceStop, piece_at};
use crate::{LexError, MOST_TOKENS, Token, TokenKind};
use items::Items;
use std::alloc::{AllocError, Global};
use syntax_tree::Name;

/// The kind of a word: a keyword, or a name.
#[tactic(auto, using(crate::proofs::Keywords::keyword_found, crate::proofs::Keywords::keyword_missed, crate::proofs::Shapes::word_bytes))]
fn word_kind(alloc: Global, word: &[u8]) -> Result<TokenKind, AllocError>
    requires { is_word_shape word.now ≡ true }
    ensures kind { IfOk result (λ kind. Spells kind word.now) }
    ensures name { IfErr result (λ _. Spells (TokenKind.Word word.now) word.now) }
{
    match keyword_of(word) {
        Some(keyword) => Ok(TokenKind::Keyword(keyword)),
        None => {
            let letters = Items::from_slice(alloc, word)?;
            Ok(TokenKind::Word(Name::new(letters).unwrap()))
        }
    }
}

/// The kind of a number.
fn number_kind(value: u64) -> TokenKind
    ensures { result ≡ TokenKind.Number (pos value) }
{
    TokenKind::Number(i128::from(value))
}

/// A piece at the front of a text: how long it is, whether no token stands since the last newline
/// behind it, and what token it is, if it is one.
#[derive(Drop)]
struct Cut {
    len: usize,
    fresh: bool,
    kind: Option<TokenKind>,
}

/// The refusal for which the cut stops at a place.
fn refusal_at(stop: PieceStop, at: u32) -> LexError
    ensures { result ≡ refusal_at stop at }
{
    match stop {
        PieceStop::Byte => LexError::Byte(at),
        PieceStop::Comment => LexError::Comment(at),
        PieceStop::Literal => LexError::Literal(at),
    }
}

/// Cuts the first piece from a text, of which it is told at which place it stands.
#[tactic(auto, using(crate::proofs::Cuts::front_space, crate::proofs::Cuts::front_word, crate::proofs::Cuts::front_number, crate::proofs::Cuts::front_mark))]
fn cut_at(alloc: Global, bytes: &[u8], fresh: bool, at: u32) -> Result<Cut, LexError>
    requires { 0 < length bytes.now }
    ensures found { IfOk result (IsFront fresh bytes.now) }
    ensures why { IfErr result (IsWhy fresh bytes.now at) }
{
    match piece_at(bytes, fresh) {
        Ok(FoundPiece::Space { len, line }) => Ok(Cut {
            len,
            fresh: fresh || line,
            kind: None,
        }),
        Ok(FoundPiece::Word(len)) => {
            let kind = word_kind(alloc, &bytes[..len])?;
            Ok(Cut {
                len,
                fresh: false,
                kind: Some(kind),
            })
        }
        Ok(FoundPiece::Number { len, value }) => Ok(Cut {
            len,
            fresh: false,
            kind: Some(number_kind(value)),
        }),
        Ok(FoundPiece::Sign(mark)) => Ok(Cut {
            len: mark.bytes().len(),
            fresh: false,
            kind: Some(TokenKind::Mark(mark)),
        }),
        Err(stop) => Err(refusal_at(stop, at)),
    }
}

/// Cuts a text into its tokens; whether it is UTF-8 is not asked.
pub(crate) fn scan(alloc: Global, bytes: &[u8]) -> Result<Items<Token>, LexError>
    requires { length bytes.now ≤ 2 ^ 20 }
    ensures cut { IfOk result (IsCut bytes.now) }
    ensures stops { IfErr result (λ e. e ≢ LexError.Memory → Stops bytes.now e) }
    ensures memory { IfErr result (λ e. e ≡ LexError.Memory → TakesMemory bytes.now) }
{
    let mut tokens = Items::new(alloc);
    let mut at = 0;
    let mut fresh = true;
    while at < bytes.len() {
        let place = at as u32;
        let Cut {
            len,
            fresh: next,
            kind,
        } = cut_at(alloc, &bytes[at..], fresh, place)?;
        if let Some(kind) = kind {
            if tokens.len() == MOST_TOKENS {
                return Err(LexError::TooManyTokens(place));
            }
            tokens.push(Token {
                kind,
                at: place,
                len: len as u32,
            })?;
        }
        at += len;
        fresh = next;
    }
    tokens.push(Token {
        kind: TokenKind::End,
        at: bytes.len() as u32,
        len: 0,
    })?;
    Ok(tokens)
}
