#![tactic(auto, using(syntax_tree::proofs::SourceExprs::source_exprs))]

ghost use Rattle.std.specs.Prelude.{◌≡◌, ◌≢◌, ◌<◌, ◌≤◌, IfOk, IfErr, length, map};
ghost use Rattle.items.specs.Gives.{Gives};
ghost use Rattle.syntax_tree.specs.SourceExpr.{source_expr_of};
ghost use Rattle.c_parser.specs.Descent.{exact_error, arguments, bracketed_expression_by, call, expression_below, link, mark_operand_by, reference_by, operand, operand_by, rest_of, signed_operand_by, whole, whole_call};
ghost use Rattle.c_parser.specs.Expressions.{with_place};
ghost use Rattle.c_parser.specs.Limits.{most_binary_operators};
ghost use Rattle.c_parser.specs.Spots.{spots_of};

use crate::rank::RANKS;
use crate::rest::{Rest, behind, deeper, spend, tail};
use crate::tokens::{begins_with, op_at, place_at, refusal_of, sign_of};
use crate::{MOST_BINARY_OPERATORS, ParseError};
use c_lexer::{Mark, Token, TokenKind};
use items::{Boxed, Items};
use std::alloc::Global;
use syntax_tree::{Expr, Name, Op, Sign};

/// An expression with the place of the bracket round it: one with operators moves there.
fn with_place(at: u32, e: Expr) -> Expr
    ensures { source_expr_of result ≡ with_place at (source_expr_of e) }
{
    match e {
        Expr::Unary(_, sign, inner) => Expr::Unary(at, sign, inner),
        Expr::Binary(_, op, left, right) => Expr::Binary(at, op, left, right),
        Expr::Lit(place, value) => Expr::Lit(place, value),
        Expr::Var(place, name) => Expr::Var(place, name),
        Expr::Call(place, name, args) => Expr::Call(place, name, args),
    }
}

/// A copy of a name.
pub(crate) fn name_copy(name: &Name) -> Result<Name, ParseError>
    ensures memory { IfErr result (λ e. e ≡ ParseError.Memory) }
    ensures copy { IfOk result (λ copy. copy ≡ name.now) }
{
    Ok(name.clone()?)
}

/// An operand, with so many levels left.
#[cycle(expression)]
fn operand(alloc: Global, levels: usize, rest: Rest) -> Result<(Expr, Rest), ParseError>
    ensures exact { Gives exact_error (λ x. (source_expr_of x.0, rest_of x.1.tokens.now x.1.operators))
        result (operand levels (rest_of rest.entry.tokens.now rest.entry.operators)) }
    ensures shorter { IfOk result (λ x. length x.1.tokens.now < length rest.entry.tokens.now) }
{
    match rest.tokens {
        [] => Err(ParseError::Syntax(0)),
        [token, tokens @ ..] => {
            let inside = Rest {
                tokens,
                operators: rest.operators,
            };
            token_operand(alloc, levels, token, refusal_of(rest.tokens), inside)
        }
    }
}

/// What begins with a token, which stands in front of the rest: an operand, or the refusal.
#[cycle(expression)]
fn token_operand<'a>(
    alloc: Global,
    levels: usize,
    token: &Token,
    refusal: ParseError,
    rest: Rest<'a>,
) -> Result<(Expr, Rest<'a>), ParseError>
    ensures exact { refusal ≢ ParseError.Memory
        → Gives exact_error (λ x. (source_expr_of x.0, rest_of x.1.tokens.now x.1.operators)) result
        (operand_by operand levels token.now.kind token.now.at refusal
        (rest_of rest.entry.tokens.now rest.entry.operators)) }
    ensures within { IfOk result (λ x. length x.1.tokens.now ≤ length rest.entry.tokens.now) }
{
    let at = token.at;
    match &token.kind {
        TokenKind::Number(value) => Ok((Expr::Lit(at, *value), rest)),
        TokenKind::Word(name) => reference(alloc, levels, at, name, rest),
        TokenKind::Mark(mark) => mark_operand(alloc, levels, at, *mark, refusal, rest),
        TokenKind::Keyword(_) => Err(refusal),
        TokenKind::End => Err(refusal),
    }
}

/// What begins with a mark, which stands in front of the rest: an operand in brackets or with a
/// sign, or the refusal.
#[cycle(expression)]
fn mark_operand(
    alloc: Global,
    levels: usize,
    at: u32,
    mark: Mark,
    refusal: ParseError,
    rest: Rest,
) -> Result<(Expr, Rest), ParseError>
    ensures exact { refusal ≢ ParseError.Memory
        → Gives exact_error (λ x. (source_expr_of x.0, rest_of x.1.tokens.now x.1.operators)) result
        (mark_operand_by operand levels at mark refusal
        (rest_of rest.entry.tokens.now rest.entry.operators)) }
    ensures shorter { IfOk result (λ x. length x.1.tokens.now < length rest.entry.tokens.now) }
{
    if mark == Mark::OpenRound {
        bracketed_expression(alloc, levels, at, rest)
    } else {
        match sign_of(mark) {
            Some(sign) => signed_operand(alloc, levels, at, sign, rest),
            None => Err(refusal),
        }
    }
}

/// An operand with a sign, which stands in front of the rest.
#[cycle(expression)]
fn signed_operand(
    alloc: Global,
    levels: usize,
    at: u32,
    sign: Sign,
    rest: Rest,
) -> Result<(Expr, Rest), ParseError>
    ensures exact { Gives exact_error (λ x. (source_expr_of x.0, rest_of x.1.tokens.now x.1.operators))
        result (signed_operand_by operand levels at sign
        (rest_of rest.entry.tokens.now rest.entry.operators)) }
    ensures shorter { IfOk result (λ x. length x.1.tokens.now < length rest.entry.tokens.now) }
{
    let level = deeper(levels, at)?;
    let (inner, after) = operand(alloc, level, rest)?;
    let unary = Expr::Unary(at, sign, Boxed::new(alloc, inner)?);
    Ok((unary, after))
}

/// An expression in brackets, the first of which stands in front of the rest.
#[cycle(expression)]
fn bracketed_expression(
    alloc: Global,
    levels: usize,
    at: u32,
    rest: Rest,
) -> Result<(Expr, Rest), ParseError>
    ensures exact { Gives exact_error (λ x. (source_expr_of x.0, rest_of x.1.tokens.now x.1.operators))
        result (bracketed_expression_by operand levels at
        (rest_of rest.entry.tokens.now rest.entry.operators)) }
    ensures shorter { IfOk result (λ x. length x.1.tokens.now < length rest.entry.tokens.now) }
{
    let level = deeper(levels, at)?;
    let (inner, after) = expression_below(alloc, RANKS, level, rest)?;
    let after = behind(after, Mark::CloseRound)?;
    Ok((with_place(at, inner), after))
}

/// A variable or a call, whose name stands in front of the rest.
#[cycle(expression)]
fn reference<'a>(
    alloc: Global,
    levels: usize,
    at: u32,
    name: &Name,
    rest: Rest<'a>,
) -> Result<(Expr, Rest<'a>), ParseError>
    ensures exact { Gives exact_error (λ x. (source_expr_of x.0, rest_of x.1.tokens.now x.1.operators))
        result (reference_by operand levels at name.now
        (rest_of rest.entry.tokens.now rest.entry.operators)) }
    ensures within { IfOk result (λ x. length x.1.tokens.now ≤ length rest.entry.tokens.now) }
{
    if begins_with(rest.tokens, Mark::OpenRound) {
        call(alloc, levels, at, name, rest)
    } else {
        Ok((Expr::Var(at, name_copy(name)?), rest))
    }
}

/// A call, whose name stands in front of the rest.
#[cycle(expression)]
fn call<'a>(
    alloc: Global,
    levels: usize,
    at: u32,
    name: &Name,
    rest: Rest<'a>,
) -> Result<(Expr, Rest<'a>), ParseError>
    ensures exact { Gives exact_error (λ x. (source_expr_of x.0, rest_of x.1.tokens.now x.1.operators))
        result (call levels at name.now (rest_of rest.entry.tokens.now rest.entry.operators)) }
    ensures shorter { IfOk result (λ x. length x.1.tokens.now < length rest.entry.tokens.now) }
{
    let level = deeper(levels, place_at(rest.tokens))?;
    let inside = behind(rest, Mark::OpenRound)?;
    let (args, after) = arguments(alloc, level, inside)?;
    let after = behind(after, Mark::CloseRound)?;
    Ok((Expr::Call(at, name_copy(name)?, args), after))
}

/// Expressions with commas between them, or none in front of a closing bracket.
#[cycle(expression)]
fn arguments(alloc: Global, level: usize, rest: Rest) -> Result<(Items<Expr>, Rest), ParseError>
    ensures exact { Gives exact_error (λ x. (map source_expr_of x.0, rest_of x.1.tokens.now x.1.operators))
        result (arguments (expression_below (operand level) 6)
        (rest_of rest.entry.tokens.now rest.entry.operators)) }
    ensures within { IfOk result (λ x. length x.1.tokens.now ≤ length rest.entry.tokens.now) }
{
    let mut args = Items::new(alloc);
    if begins_with(rest.tokens, Mark::CloseRound) {
        return Ok((args, rest));
    }
    let (first, mut after) = expression_below(alloc, RANKS, level, rest)?;
    args.push(first)?;
    'more: while begins_with(after.tokens, Mark::Comma) {
        let next = Rest {
            tokens: tail(after.tokens),
            operators: after.operators,
        };
        let (arg, behind) = expression_below(alloc, RANKS, level, next)?;
        args.push(arg)?;
        after = behind;
    }
    Ok((args, after))
}

/// An expression whose operators have ranks below `ranks`.
#[cycle(expression)]
#[tactic(auto, using(crate::proofs::Equations::joining))]
fn expression_below(
    alloc: Global,
    ranks: usize,
    level: usize,
    rest: Rest,
) -> Result<(Expr, Rest), ParseError>
    ensures exact { Gives exact_error (λ x. (source_expr_of x.0, rest_of x.1.tokens.now x.1.operators))
        result (expression_below (operand level) ranks (rest_of rest.entry.tokens.now rest.entry.operators)) }
    ensures shorter { IfOk result (λ x. length x.1.tokens.now < length rest.entry.tokens.now) }
{
    if ranks == 0 {
        return operand(alloc, level, rest);
    }
    let rank = ranks - 1;
    let at = place_at(rest.tokens);
    let (mut left, mut after) = expression_below(alloc, rank, level, rest)?;
    'links: while let Some(op) = op_at(after.tokens, rank) {
        let (next, behind) = link(alloc, rank, level, at, op, left, after)?;
        left = next;
        after = behind;
    }
    Ok((left, after))
}

/// The operator that stands first and its right operand, whose operators have ranks below its own.
#[cycle(expression)]
fn link(
    alloc: Global,
    rank: usize,
    level: usize,
    at: u32,
    op: Op,
    left: Expr,
    rest: Rest,
) -> Result<(Expr, Rest), ParseError>
    ensures exact { Gives exact_error (λ x. (source_expr_of x.0, rest_of x.1.tokens.now x.1.operators))
        result (link (expression_below (operand level) rank) at op
        (source_expr_of left, rest_of rest.entry.tokens.now rest.entry.operators)) }
    ensures shorter { IfOk result (λ x. length x.1.tokens.now < length rest.entry.tokens.now) }
{
    let left = Boxed::new(alloc, left)?;
    let behind = spend(rest)?;
    let (right, after) = expression_below(alloc, rank, level, behind)?;
    let right = Boxed::new(alloc, right)?;
    Ok((Expr::Binary(at, op, left, right), after))
}

/// A whole expression, with so many levels left.
pub(crate) fn whole(
    alloc: Global,
    levels: usize,
    tokens: &[Token],
) -> Result<(Expr, &[Token]), ParseError>
    ensures exact { Gives exact_error (λ x. (source_expr_of x.0, spots_of x.1.now)) result
        (whole most_binary_operators levels (spots_of tokens.now)) }
    ensures shorter { IfOk result (λ x. length x.1.now < length tokens.now) }
{
    let rest = Rest {
        tokens,
        operators: MOST_BINARY_OPERATORS,
    };
    let (e, after) = expression_below(alloc, RANKS, levels, rest)?;
    Ok((e, after.tokens))
}

/// A call that is a statement, whose name stands in front of the tokens.
pub(crate) fn whole_call<'a>(
    alloc: Global,
    levels: usize,
    at: u32,
    name: &Name,
    tokens: &'a [Token],
) -> Result<(Expr, &'a [Token]), ParseError>
    ensures exact { Gives exact_error (λ x. (source_expr_of x.0, spots_of x.1.now)) result
        (whole_call most_binary_operators levels at name.now (spots_of tokens.now)) }
    ensures shorter { IfOk result (λ x. length x.1.now < length tokens.now) }
{
    let rest = Rest {
        tokens,
        operators: MOST_BINARY_OPERATORS,
    };
    let (e, after) = call(alloc, levels, at, name, rest)?;
    Ok((e, after.tokens))
}
