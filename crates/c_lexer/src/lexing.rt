ghost use Rattle.std.specs.Prelude.{◌≡◌, ◌≢◌, ◌≤◌, ◌^◌, List, ℕ, length, IfOk, IfErr, nat_lt, true};
ghost use Rattle.c_lexer.specs.declared.token.Token.{Token};
ghost use Rattle.c_lexer.specs.declared.error.LexError.{LexError};
ghost use Rattle.std.specs.Str.{IsValidUpTo};
ghost use Rattle.c_lexer.specs.Tokens.{IsCut, Tokenizes};
ghost use Rattle.c_lexer.specs.Refusals.{IsRefused, Stops, TakesMemory, place_of};

use crate::scan::scan;
use crate::{LexError, Token};
use items::Items;
use std::alloc::Global;
use std::str;

/// Whether a fault of the cut comes before a place. Want of memory comes before every place.
fn is_before(e: LexError, at: u32) -> bool
    ensures memory { e ≡ LexError.Memory → result ≡ true }
    ensures place { e ≢ LexError.Memory → result ≡ nat_lt (place_of e) at }
{
    match e {
        LexError::Byte(place)
        | LexError::Comment(place)
        | LexError::Literal(place)
        | LexError::TooManyTokens(place) => place < at,
        LexError::Memory => true,
    }
}

/// Of a fault of the cut and of the place where a text stops being UTF-8, the one that comes first.
fn first_fault(scanned: Result<Items<Token>, LexError>, at: u32) -> LexError
    ensures first { (text : List ℕ) → IsValidUpTo text at → IfOk scanned (IsCut text)
        → IfErr scanned (λ e. e ≢ LexError.Memory → Stops text e) →
        result ≢ LexError.Memory → IsRefused text result }
    ensures memory { result ≡ LexError.Memory → scanned ≡ Err LexError.Memory }
{
    match scanned {
        Err(e) if is_before(e, at) => e,
        _ => LexError::Byte(at),
    }
}

/// The tokens of a text, or the first fault.
fn tokens_of(alloc: Global, bytes: &[u8]) -> Result<Items<Token>, LexError>
    requires { length bytes.now ≤ 2 ^ 20 }
    ensures found { IfOk result (Tokenizes bytes.now) }
    ensures refused { IfErr result (λ e. e ≢ LexError.Memory → IsRefused bytes.now e) }
    ensures memory { IfErr result (λ e. e ≡ LexError.Memory → TakesMemory bytes.now) }
{
    let scanned = scan(alloc, bytes);
    match str::from_utf8(bytes) {
        Ok(_) => scanned,
        Err(fault) => Err(first_fault(scanned, fault.valid_up_to() as u32)),
    }
}

/// The tokens of a text of at most 2^20 bytes, the last of them `End` at its length, or the first
/// fault in the order of the text.
///
/// It takes one pass over the bytes to see that they are UTF-8, and one to cut them.
pub fn lex(alloc: Global, bytes: &[u8]) -> Result<Items<Token>, LexError>
    requires { length bytes.now ≤ 2 ^ 20 }
    ensures found { IfOk result (Tokenizes bytes.now) }
    ensures refused { IfErr result (λ e. e ≢ LexError.Memory → IsRefused bytes.now e) }

    // Memory is wanted only where a token is made: a fault in front of all tokens is always
    // answered.
    ensures memory { IfErr result (λ e. e ≡ LexError.Memory → TakesMemory bytes.now) }

    // What a text has, and why it is refused, is answered but for want of memory.
    ensures tokens { (tokens : List Token) → Tokenizes bytes.now tokens
        → IfErr result (λ e. e ≡ LexError.Memory) × IfOk result (λ found. found ≡ tokens) }
    ensures refusal { (e : LexError) → IsRefused bytes.now e
        → IfErr result (λ told. told ≢ LexError.Memory → told ≡ e) × IfOk result (λ _. ⊥) }
{
    tokens_of(alloc, bytes)
}
