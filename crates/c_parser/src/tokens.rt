ghost use Rattle.std.specs.Prelude.{◌≡◌, ◌≢◌, ◌<◌, IfErr, IfOk, IfSome, length, true};
ghost use Rattle.items.specs.Gives.{Gives};
ghost use Rattle.c_parser.specs.Descent.{exact_error, is_mark, begins_with, refusal_of, place_at, past, sign_of, op_of, op_at};
ghost use Rattle.c_parser.specs.Profile.{mark_is_outside, keyword_is_inside, is_outside};
ghost use Rattle.c_parser.specs.Spots.{spots_of};
ghost use Rattle.c_parser.specs.Statements.{begins_with_keyword, compound_at, compound_of, count_at, count_of, is_keyword, keyword_at, past_keyword, word_at};

use crate::ParseError;
use crate::rank::rank;
use c_lexer::{Keyword, Mark, Token, TokenKind};
use syntax_tree::{Name, Op, Sign};

/// Whether a mark stands first.
pub(crate) fn begins_with(tokens: &[Token], mark: Mark) -> bool
    ensures exact { result ≡ begins_with mark (spots_of tokens.now) }
    ensures some { result ≡ true → 0 < length tokens.now }
{
    match tokens {
        [token, ..] => is_mark(&token.kind, mark),
        [] => false,
    }
}

fn is_mark(kind: &TokenKind, mark: Mark) -> bool
    ensures { result ≡ is_mark mark kind.now }
{
    match kind {
        TokenKind::Mark(found) => *found == mark,
        _ => false,
    }
}

/// Whether a mark of C is none of the grammar.
fn mark_is_outside(mark: Mark) -> bool
    ensures { result ≡ mark_is_outside mark }
{
    match mark {
        Mark::OpenSquare
        | Mark::CloseSquare
        | Mark::Dot
        | Mark::Arrow
        | Mark::Amp
        | Mark::Bar
        | Mark::Caret
        | Mark::Tilde
        | Mark::ShiftLeft
        | Mark::ShiftRight
        | Mark::Question
        | Mark::Colon
        | Mark::Dots
        | Mark::ShiftLeftAssign
        | Mark::ShiftRightAssign
        | Mark::AmpAssign
        | Mark::CaretAssign
        | Mark::BarAssign => true,
        _ => false,
    }
}

/// Whether the grammar has a keyword.
fn keyword_is_inside(keyword: Keyword) -> bool
    ensures { result ≡ keyword_is_inside keyword }
{
    match keyword {
        Keyword::Int
        | Keyword::Void
        | Keyword::If
        | Keyword::Else
        | Keyword::While
        | Keyword::Do
        | Keyword::For
        | Keyword::Break
        | Keyword::Continue
        | Keyword::Return
        | Keyword::Extern => true,
        _ => false,
    }
}

fn is_outside(kind: &TokenKind) -> bool
    ensures { result ≡ is_outside kind.now }
{
    match kind {
        TokenKind::Mark(mark) => mark_is_outside(*mark),
        TokenKind::Keyword(keyword) => !keyword_is_inside(*keyword),
        TokenKind::Word(_) => false,
        TokenKind::Number(_) => false,
        TokenKind::End => false,
    }
}

/// The refusal of the first token.
pub(crate) fn refusal_of(tokens: &[Token]) -> ParseError
    ensures { result ≡ refusal_of (spots_of tokens.now) }
{
    match tokens {
        [token, ..] => {
            if is_outside(&token.kind) {
                ParseError::Unsupported(token.at)
            } else {
                ParseError::Syntax(token.at)
            }
        }
        [] => ParseError::Syntax(0),
    }
}

/// The place of the first token.
pub(crate) fn place_at(tokens: &[Token]) -> u32
    ensures { result ≡ place_at (spots_of tokens.now) }
{
    match tokens {
        [token, ..] => token.at,
        [] => 0,
    }
}

/// The tokens behind a mark that has to stand first.
#[tactic(auto, using(crate::proofs::FirstTokens::refused_no_memory))]
pub(crate) fn past(tokens: &[Token], mark: Mark) -> Result<&[Token], ParseError>
    ensures exact { Gives exact_error (λ rest. spots_of rest.now) result
        (past mark (spots_of tokens.now)) }
    ensures shorter { IfOk result (λ rest. length rest.now < length tokens.now) }
    ensures memory { IfErr result (λ e. e ≢ ParseError.Memory) }
{
    match tokens {
        [token, rest @ ..] if is_mark(&token.kind, mark) => Ok(rest),
        _ => Err(refusal_of(tokens)),
    }
}

/// The unary operator that a mark is.
pub(crate) fn sign_of(mark: Mark) -> Option<Sign>
    ensures { result ≡ sign_of mark }
{
    match mark {
        Mark::Plus => Some(Sign::Plus),
        Mark::Minus => Some(Sign::Minus),
        Mark::Bang => Some(Sign::Not),
        _ => None,
    }
}

/// The binary operator that a mark is.
fn op_of(mark: Mark) -> Option<Op>
    ensures { result ≡ op_of mark }
{
    match mark {
        Mark::OrOr => Some(Op::Or),
        Mark::AndAnd => Some(Op::And),
        Mark::Same => Some(Op::Eq),
        Mark::Differ => Some(Op::Ne),
        Mark::Less => Some(Op::Lt),
        Mark::LessEqual => Some(Op::Le),
        Mark::More => Some(Op::Gt),
        Mark::MoreEqual => Some(Op::Ge),
        Mark::Plus => Some(Op::Add),
        Mark::Minus => Some(Op::Sub),
        Mark::Star => Some(Op::Mul),
        Mark::Slash => Some(Op::Div),
        Mark::Percent => Some(Op::Rem),
        _ => None,
    }
}

/// The binary operator of a rank that stands first.
pub(crate) fn op_at(tokens: &[Token], of: usize) -> Option<Op>
    ensures { result ≡ op_at of (spots_of tokens.now) }
{
    match tokens {
        [token, ..] => match token.kind {
            TokenKind::Mark(mark) => match op_of(mark) {
                Some(op) if rank(op) == of => Some(op),
                _ => None,
            },
            _ => None,
        },
        [] => None,
    }
}

fn is_keyword(kind: &TokenKind, keyword: Keyword) -> bool
    ensures { result ≡ is_keyword keyword kind.now }
{
    match kind {
        TokenKind::Keyword(found) => *found == keyword,
        _ => false,
    }
}

/// Whether a keyword stands first.
pub(crate) fn begins_with_keyword(tokens: &[Token], keyword: Keyword) -> bool
    ensures exact { result ≡ begins_with_keyword keyword (spots_of tokens.now) }
    ensures some { result ≡ true → 0 < length tokens.now }
{
    match tokens {
        [token, ..] => is_keyword(&token.kind, keyword),
        [] => false,
    }
}

/// The keyword that stands first.
pub(crate) fn keyword_at(tokens: &[Token]) -> Option<Keyword>
    ensures exact { result ≡ keyword_at (spots_of tokens.now) }
    ensures some { IfSome result (λ _. 0 < length tokens.now) }
{
    match tokens {
        [token, ..] => match token.kind {
            TokenKind::Keyword(keyword) => Some(keyword),
            _ => None,
        },
        [] => None,
    }
}

/// The tokens behind a keyword that has to stand first.
#[tactic(auto, using(crate::proofs::FirstTokens::refused_no_memory))]
pub(crate) fn past_keyword(tokens: &[Token], keyword: Keyword) -> Result<&[Token], ParseError>
    ensures exact { Gives exact_error (λ rest. spots_of rest.now) result
        (past_keyword keyword (spots_of tokens.now)) }
    ensures shorter { IfOk result (λ rest. length rest.now < length tokens.now) }
    ensures memory { IfErr result (λ e. e ≢ ParseError.Memory) }
{
    match tokens {
        [token, rest @ ..] if is_keyword(&token.kind, keyword) => Ok(rest),
        _ => Err(refusal_of(tokens)),
    }
}

/// A name that stands first, its place, and the tokens behind it.
#[derive(Clone, Copy)]
pub(crate) struct Word<'a> {
    pub at: u32,
    pub name: &'a Name,
    pub rest: &'a [Token],
}

/// The name that has to stand first.
#[tactic(auto, using(crate::proofs::FirstTokens::refused_no_memory))]
pub(crate) fn word_at(tokens: &[Token]) -> Result<Word, ParseError>
    ensures exact { Gives exact_error
        (λ word. record { at = word.at; name = word.name.now; rest = spots_of word.rest.now })
        result (word_at (spots_of tokens.now)) }
    ensures shorter { IfOk result (λ word. length word.rest.now < length tokens.now) }
    ensures memory { IfErr result (λ e. e ≢ ParseError.Memory) }
{
    match tokens {
        [] => Err(ParseError::Syntax(0)),
        [token, rest @ ..] => match &token.kind {
            TokenKind::Word(name) => Ok(Word {
                at: token.at,
                name,
                rest,
            }),
            _ => Err(refusal_of(tokens)),
        },
    }
}

/// The operator of a compound assignment.
fn compound_of(mark: Mark) -> Option<Op>
    ensures { result ≡ compound_of mark }
{
    match mark {
        Mark::PlusAssign => Some(Op::Add),
        Mark::MinusAssign => Some(Op::Sub),
        Mark::StarAssign => Some(Op::Mul),
        Mark::SlashAssign => Some(Op::Div),
        Mark::PercentAssign => Some(Op::Rem),
        _ => None,
    }
}

/// The operator of a count up or down.
pub(crate) fn count_of(mark: Mark) -> Option<Op>
    ensures { result ≡ count_of mark }
{
    match mark {
        Mark::PlusPlus => Some(Op::Add),
        Mark::MinusMinus => Some(Op::Sub),
        _ => None,
    }
}

/// The operator of the compound assignment that stands first.
pub(crate) fn compound_at(tokens: &[Token]) -> Option<Op>
    ensures exact { result ≡ compound_at (spots_of tokens.now) }
    ensures some { IfSome result (λ _. 0 < length tokens.now) }
{
    match tokens {
        [token, ..] => match token.kind {
            TokenKind::Mark(mark) => compound_of(mark),
            _ => None,
        },
        [] => None,
    }
}

/// The operator of the count that stands first.
pub(crate) fn count_at(tokens: &[Token]) -> Option<Op>
    ensures exact { result ≡ count_at (spots_of tokens.now) }
    ensures some { IfSome result (λ _. 0 < length tokens.now) }
{
    match tokens {
        [token, ..] => match token.kind {
            TokenKind::Mark(mark) => count_of(mark),
            _ => None,
        },
        [] => None,
    }
}
