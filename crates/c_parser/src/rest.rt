ghost use Rattle.std.specs.Prelude.{◌≡◌, ◌≢◌, ◌<◌, ◌≤◌, IfOk, IfErr, length, drop};
ghost use Rattle.items.specs.Gives.{Gives};
ghost use Rattle.c_parser.specs.Descent.{exact_error, behind, deeper, rest_of, spend, tail};
ghost use Rattle.c_parser.specs.Spots.{spots_of};

use crate::ParseError;
use crate::tokens::{past, place_at};
use c_lexer::{Mark, Token};

/// What is left to read: tokens, and how many operators the expression may still have.
#[derive(Clone, Copy)]
pub(crate) struct Rest<'a> {
    pub tokens: &'a [Token],
    pub operators: usize,
}

/// The tokens behind the first one.
pub(crate) fn tail(tokens: &[Token]) -> &[Token]
    ensures exact { spots_of result.now ≡ tail (spots_of tokens.now) }
    ensures within { length result.now ≤ length tokens.now }
    ensures shorter { 0 < length tokens.now → length result.now < length tokens.now }
{
    match tokens {
        [_, tail @ ..] => tail,
        [] => tokens,
    }
}

/// What is left behind a mark that has to stand first.
pub(crate) fn behind(rest: Rest, mark: Mark) -> Result<Rest, ParseError>
    ensures exact { Gives exact_error (λ x. rest_of x.tokens.now x.operators) result
        (behind mark (rest_of rest.entry.tokens.now rest.entry.operators)) }
    ensures shorter { IfOk result (λ x. length x.tokens.now < length rest.entry.tokens.now) }
    ensures memory { IfErr result (λ e. e ≢ ParseError.Memory) }
{
    let tokens = past(rest.tokens, mark)?;
    Ok(Rest {
        tokens,
        operators: rest.operators,
    })
}

/// One level less, for what begins at a place.
pub(crate) fn deeper(levels: usize, at: u32) -> Result<usize, ParseError>
    ensures exact { Gives exact_error (λ level. level) result (deeper levels at) }
    ensures less { IfOk result (λ level. level < levels) }
    ensures memory { IfErr result (λ e. e ≢ ParseError.Memory) }
{
    if levels == 0 {
        Err(ParseError::Deep(at))
    } else {
        Ok(levels - 1)
    }
}

/// One operator less, behind the operator that stands first.
pub(crate) fn spend(rest: Rest) -> Result<Rest, ParseError>
    ensures exact { Gives exact_error (λ x. rest_of x.tokens.now x.operators) result
        (spend (rest_of rest.entry.tokens.now rest.entry.operators)) }
    ensures within { IfOk result (λ x. length x.tokens.now ≤ length rest.entry.tokens.now) }
    ensures memory { IfErr result (λ e. e ≢ ParseError.Memory) }
{
    if rest.operators == 0 {
        Err(ParseError::Deep(place_at(rest.tokens)))
    } else {
        Ok(Rest {
            tokens: tail(rest.tokens),
            operators: rest.operators - 1,
        })
    }
}
