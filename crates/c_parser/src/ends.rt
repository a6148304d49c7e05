ghost use Rattle.std.specs.Prelude.{◌≡◌};
ghost use Rattle.c_parser.specs.Spots.{ends_once, is_end, spots_of};

use c_lexer::{Token, TokenKind};

fn is_end(kind: &TokenKind) -> bool
    ensures { result ≡ is_end kind.now }
{
    match kind {
        TokenKind::End => true,
        _ => false,
    }
}

/// Whether the last token is `End` and no other is.
pub fn ends_once(tokens: &[Token]) -> bool
    ensures { result ≡ ends_once (spots_of tokens.now) }
{
    let mut ended = false;
    'tokens: for token in tokens {
        if ended {
            return false;
        }
        ended = is_end(&token.kind);
    }
    ended
}
