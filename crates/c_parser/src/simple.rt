#![tactic(auto, using(syntax_tree::proofs::SourceExprs::source_exprs, syntax_tree::proofs::SourceLines::source_lines))]

ghost use Rattle.std.specs.Prelude.{◌≡◌, ◌<◌, ◌≤◌, [], ◌∷◌, IfOk, Ok, Some, length, map};
ghost use Rattle.items.specs.Gives.{Gives};
ghost use Rattle.syntax_tree.specs.SourceExpr.{source_expr_of};
ghost use Rattle.syntax_tree.specs.SourceLine.{source_line_of};
ghost use Rattle.c_parser.specs.Descent.{exact_error};
ghost use Rattle.c_parser.specs.Spots.{spots_of};
ghost use Rattle.c_parser.specs.Limits.{most_binary_operators};
ghost use Rattle.c_parser.specs.Statements.{call_statement, assignment_line, behind_name, compound_assignment, increment, increment_before, initialisation, local, simple, variable, variables};

use crate::ParseError;
use crate::expression::{name_copy, whole, whole_call};
use crate::rest::tail;
use crate::tokens::{begins_with, compound_at, count_at, count_of, past, refusal_of, word_at};
use c_lexer::{Mark, Token, TokenKind};
use items::{Boxed, Items};
use std::alloc::Global;
use syntax_tree::{Expr, Line, Name, Op};

/// `name = name op value`, all that is added at the place of the name.
fn compound_assignment(
    alloc: Global,
    at: u32,
    name: &Name,
    op: Op,
    value: Expr,
) -> Result<Line, ParseError>
    ensures { Gives exact_error source_line_of result
        (Ok (compound_assignment at name.now op (source_expr_of value))) }
{
    let right = Boxed::new(alloc, value)?;
    let left = Boxed::new(alloc, Expr::Var(at, name_copy(name)?))?;
    let name = name_copy(name)?;
    let value = Expr::Binary(at, op, left, right);
    Ok(Line::Assign { name, at, value })
}

/// `name = name op 1`.
fn increment(alloc: Global, at: u32, name: &Name, op: Op) -> Result<Line, ParseError>
    ensures { Gives exact_error source_line_of result (Ok (increment at name.now op)) }
{
    compound_assignment(alloc, at, name, op, Expr::Lit(at, 1))
}

/// An assignment, whose `=` stands first.
fn assignment_line<'a>(
    alloc: Global,
    levels: usize,
    at: u32,
    name: &Name,
    tokens: &'a [Token],
) -> Result<(Line, &'a [Token]), ParseError>
    ensures exact { Gives exact_error (λ x. (source_line_of x.0, spots_of x.1.now)) result
        (assignment_line most_binary_operators levels at name.now (spots_of tokens.now)) }
    ensures shorter { IfOk result (λ x. length x.1.now < length tokens.now) }
{
    let (value, after) = whole(alloc, levels, tail(tokens))?;
    let name = name_copy(name)?;
    Ok((Line::Assign { name, at, value }, after))
}

/// A call that is a statement, whose bracket stands first.
fn call_statement<'a>(
    alloc: Global,
    levels: usize,
    at: u32,
    name: &Name,
    tokens: &'a [Token],
) -> Result<(Line, &'a [Token]), ParseError>
    ensures exact { Gives exact_error (λ x. (source_line_of x.0, spots_of x.1.now)) result
        (call_statement most_binary_operators levels at name.now (spots_of tokens.now)) }
    ensures shorter { IfOk result (λ x. length x.1.now < length tokens.now) }
{
    let (call, after) = whole_call(alloc, levels, at, name, tokens)?;
    Ok((Line::Act(call), after))
}

/// What goes on behind a name: an assignment, a count or a call.
fn behind_name<'a>(
    alloc: Global,
    levels: usize,
    at: u32,
    name: &Name,
    tokens: &'a [Token],
) -> Result<(Line, &'a [Token]), ParseError>
    ensures exact { Gives exact_error (λ x. (source_line_of x.0, spots_of x.1.now)) result
        (behind_name most_binary_operators levels at name.now (spots_of tokens.now)) }
    ensures within { IfOk result (λ x. length x.1.now ≤ length tokens.now) }
{
    if begins_with(tokens, Mark::Assign) {
        return assignment_line(alloc, levels, at, name, tokens);
    }
    if let Some(op) = compound_at(tokens) {
        let (value, after) = whole(alloc, levels, tail(tokens))?;
        return Ok((compound_assignment(alloc, at, name, op, value)?, after));
    }
    if let Some(op) = count_at(tokens) {
        return Ok((increment(alloc, at, name, op)?, tail(tokens)));
    }
    if begins_with(tokens, Mark::OpenRound) {
        call_statement(alloc, levels, at, name, tokens)
    } else {
        Err(refusal_of(tokens))
    }
}

/// A count whose mark stands in front of the tokens.
fn increment_before(alloc: Global, op: Op, tokens: &[Token]) -> Result<(Line, &[Token]), ParseError>
    ensures exact { Gives exact_error (λ x. (source_line_of x.0, spots_of x.1.now)) result
        (increment_before (Some op) (spots_of tokens.now) ParseError.Memory) }
    ensures within { IfOk result (λ x. length x.1.now ≤ length tokens.now) }
{
    let word = word_at(tokens)?;
    Ok((increment(alloc, word.at, word.name, op)?, word.rest))
}

/// An assignment, a count or a call.
pub(crate) fn simple(
    alloc: Global,
    levels: usize,
    tokens: &[Token],
) -> Result<(Line, &[Token]), ParseError>
    ensures exact { Gives exact_error (λ x. (source_line_of x.0, spots_of x.1.now)) result
        (simple most_binary_operators levels (spots_of tokens.now)) }
    ensures shorter { IfOk result (λ x. length x.1.now < length tokens.now) }
{
    match tokens {
        [] => Err(ParseError::Syntax(0)),
        [token, rest @ ..] => match &token.kind {
            TokenKind::Word(name) => behind_name(alloc, levels, token.at, name, rest),
            TokenKind::Mark(mark) => match count_of(*mark) {
                Some(op) => increment_before(alloc, op, rest),
                None => Err(refusal_of(tokens)),
            },
            TokenKind::Keyword(_) => Err(refusal_of(tokens)),
            TokenKind::Number(_) => Err(refusal_of(tokens)),
            TokenKind::End => Err(refusal_of(tokens)),
        },
    }
}

/// A local and its value, whose `=` stands first.
fn initialisation<'a>(
    alloc: Global,
    levels: usize,
    at: u32,
    name: &Name,
    tokens: &'a [Token],
) -> Result<(Line, &'a [Token]), ParseError>
    ensures exact { Gives exact_error (λ x. (source_line_of x.0, spots_of x.1.now)) result
        (initialisation most_binary_operators levels at name.now (spots_of tokens.now)) }
    ensures shorter { IfOk result (λ x. length x.1.now < length tokens.now) }
{
    let (value, after) = whole(alloc, levels, tail(tokens))?;
    let name = name_copy(name)?;
    let init = Some(value);
    Ok((Line::Local { name, at, init }, after))
}

/// A local, with its value or without.
fn variable(alloc: Global, levels: usize, tokens: &[Token]) -> Result<(Line, &[Token]), ParseError>
    ensures exact { Gives exact_error (λ x. (source_line_of x.0, spots_of x.1.now)) result
        (variable most_binary_operators levels (spots_of tokens.now)) }
    ensures shorter { IfOk result (λ x. length x.1.now < length tokens.now) }
{
    let word = word_at(tokens)?;
    if begins_with(word.rest, Mark::Assign) {
        initialisation(alloc, levels, word.at, word.name, word.rest)
    } else {
        let name = name_copy(word.name)?;
        let line = Line::Local {
            name,
            at: word.at,
            init: None,
        };
        Ok((line, word.rest))
    }
}

/// The locals that go on behind these, each with its comma in front.
fn variables<'a>(
    alloc: Global,
    levels: usize,
    first: Items<Line>,
    tokens: &'a [Token],
) -> Result<(Items<Line>, &'a [Token]), ParseError>
    ensures exact { Gives exact_error (λ x. (map source_line_of x.0, spots_of x.1.now)) result
        (variables most_binary_operators levels (map source_line_of first, spots_of tokens.now)) }
    ensures within { IfOk result (λ x. length x.1.now ≤ length tokens.now) }
{
    let mut lines = first;
    let mut after = tokens;
    'more: while begins_with(after, Mark::Comma) {
        let (next, behind) = variable(alloc, levels, tail(after))?;
        lines.push(next)?;
        after = behind;
    }
    Ok((lines, after))
}

/// The locals behind `int`, and their semicolon.
pub(crate) fn local(
    alloc: Global,
    levels: usize,
    tokens: &[Token],
) -> Result<(Items<Line>, &[Token]), ParseError>
    ensures exact { Gives exact_error (λ x. (map source_line_of x.0, spots_of x.1.now)) result
        (local most_binary_operators levels (spots_of tokens.now)) }
    ensures shorter { IfOk result (λ x. length x.1.now < length tokens.now) }
{
    let (first, after) = variable(alloc, levels, tokens)?;
    let (lines, after) = variables(alloc, levels, single(alloc, first)?, after)?;
    let after = past(after, Mark::Semi)?;
    Ok((lines, after))
}

/// The list of one line.
pub(crate) fn single(alloc: Global, line: Line) -> Result<Items<Line>, ParseError>
    ensures { Gives exact_error (λ x. map source_line_of x) result (Ok (source_line_of line ∷ [])) }
{
    let mut lines = Items::new(alloc);
    lines.push(line)?;
    Ok(lines)
}
