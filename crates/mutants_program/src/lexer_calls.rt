ghost use Rattle.std.specs.Prelude.{◌≡◌, ◌≢◌, ◌≤◌, ◌^◌, List, length, IfErr, IfOk};
ghost use Rattle.c_lexer.specs.declared.error.LexError.{LexError};
ghost use Rattle.c_lexer.specs.declared.token.Token.{Token};
ghost use Rattle.c_lexer.specs.Refusals.{IsRefused, TakesMemory};
ghost use Rattle.c_lexer.specs.Tokens.{Tokenizes};

use c_lexer::{LexError, Token};
use items::Items;
use std::alloc::Global;

/// The tokens of a text, or its first fault.
pub fn lex(alloc: Global, bytes: &[u8]) -> Result<Items<Token>, LexError>
    requires { length bytes.now ≤ 2 ^ 20 }
    ensures found { IfOk result (Tokenizes bytes.now) }
    ensures refused { IfErr result (λ e. e ≢ LexError.Memory → IsRefused bytes.now e) }
    ensures memory { IfErr result (λ e. e ≡ LexError.Memory → TakesMemory bytes.now) }
    ensures tokens { (tokens : List Token) → Tokenizes bytes.now tokens
        → IfErr result (λ e. e ≡ LexError.Memory) × IfOk result (λ found. found ≡ tokens) }
    ensures refusal { (e : LexError) → IsRefused bytes.now e
        → IfErr result (λ told. told ≢ LexError.Memory → told ≡ e) × IfOk result (λ _. ⊥) }
{
    c_lexer::lex(alloc, bytes)
}
