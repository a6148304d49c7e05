#![tactic(auto, using(syntax_tree::proofs::SourceExprs::source_exprs, syntax_tree::proofs::SourceLines::source_lines, crate::proofs::Lines::listed))]

ghost use Rattle.std.specs.Prelude.{◌≡◌, ◌≢◌, ◌<◌, ◌≤◌, [], ◌∷◌, Ok, IfOk, length, map};
ghost use Rattle.std.specs.Option.{option_map};
ghost use Rattle.items.specs.Gives.{Gives};
ghost use Rattle.syntax_tree.specs.SourceExpr.{source_expr_of};
ghost use Rattle.syntax_tree.specs.SourceLine.{Loop, lines_from, source_line_of};
ghost use Rattle.c_parser.specs.Descent.{place_at, refusal_of, tail, exact_error};
ghost use Rattle.c_parser.specs.Spots.{spots_of};
ghost use Rattle.c_parser.specs.Parts.{for_begin, for_end, for_parts};
ghost use Rattle.c_parser.specs.Statements.{block, block_by, condition, do_by, entries, entry, for_condition, for_step, if_by, init, keyword_by, line_read, otherwise, return_by, return_value, simple_line, single_by, while_by};
ghost use Rattle.c_parser.specs.Limits.{most_binary_operators};

use crate::ParseError;
use crate::expression::whole;
use crate::rest::{deeper, tail};
use crate::simple::{local, simple, single};
use crate::tokens::{
    begins_with, begins_with_keyword, keyword_at, past, past_keyword, place_at, refusal_of,
};
use c_lexer::{Keyword, Mark, Token};
use items::Items;
use std::alloc::Global;
use syntax_tree::{Expr, Line};

/// A line that is a statement, with so many levels left. A lone semicolon gives no line.
#[cycle(line)]
fn line(
    alloc: Global,
    levels: usize,
    tokens: &[Token],
) -> Result<(Items<Line>, &[Token]), ParseError>
    ensures exact { Gives exact_error (λ x. (map source_line_of x.0, spots_of x.1.now)) result
        (line_read most_binary_operators levels (spots_of tokens.now)) }
    ensures shorter { IfOk result (λ x. length x.1.now < length tokens.now) }
{
    if begins_with(tokens, Mark::OpenBrace) {
        return block_line(alloc, levels, place_at(tokens), tail(tokens));
    }
    if begins_with(tokens, Mark::Semi) {
        return Ok((Items::new(alloc), tail(tokens)));
    }
    match keyword_at(tokens) {
        Some(keyword) => keyword_line(alloc, levels, keyword, tokens),
        None => simple_line(alloc, levels, tokens),
    }
}

/// A line that begins with a keyword.
#[cycle(line)]
fn keyword_line(
    alloc: Global,
    levels: usize,
    keyword: Keyword,
    tokens: &[Token],
) -> Result<(Items<Line>, &[Token]), ParseError>
    requires { 0 < length tokens.now }
    ensures exact { Gives exact_error (λ x. (map source_line_of x.0, spots_of x.1.now)) result
        (keyword_by most_binary_operators (line_read most_binary_operators) levels keyword
        (place_at (spots_of tokens.now)) (tail (spots_of tokens.now))
        (refusal_of (spots_of tokens.now))) }
    ensures shorter { IfOk result (λ x. length x.1.now < length tokens.now) }
{
    let at = place_at(tokens);
    let rest = tail(tokens);
    match keyword {
        Keyword::If => if_line(alloc, levels, at, rest),
        Keyword::While => while_line(alloc, levels, at, rest),
        Keyword::Do => do_line(alloc, levels, at, rest),
        Keyword::For => for_line(alloc, levels, at, rest),
        Keyword::Break => single_line(alloc, Line::Break(at), rest),
        Keyword::Continue => single_line(alloc, Line::Continue(at), rest),
        Keyword::Return => return_line(alloc, levels, at, rest),
        _ => Err(refusal_of(tokens)),
    }
}

/// A block whose brace stands in front of the tokens.
#[cycle(line)]
fn block_line(
    alloc: Global,
    levels: usize,
    at: u32,
    tokens: &[Token],
) -> Result<(Items<Line>, &[Token]), ParseError>
    ensures exact { Gives exact_error (λ x. (map source_line_of x.0, spots_of x.1.now)) result
        (block_by most_binary_operators (line_read most_binary_operators) levels at
        (spots_of tokens.now)) }
    ensures shorter { IfOk result (λ x. length x.1.now < length tokens.now) }
{
    let level = deeper(levels, at)?;
    let (lines, _, after) = block(alloc, level, tokens)?;
    Ok((single(alloc, Line::Block(lines))?, after))
}

/// What stands behind an opening brace: the lines, the place of the closing brace, and what is
/// behind it.
#[cycle(line)]
pub(crate) fn block(
    alloc: Global,
    level: usize,
    tokens: &[Token],
) -> Result<(Items<Line>, u32, &[Token]), ParseError>
    ensures exact { Gives exact_error (λ x. (map source_line_of x.0, x.1, spots_of x.2.now)) result
        (block most_binary_operators (line_read most_binary_operators level) level
        (spots_of tokens.now)) }
    ensures shorter { IfOk result (λ x. length x.2.now < length tokens.now) }
{
    let (lines, closing) = entries(alloc, level, tokens)?;
    let after = past(closing, Mark::CloseBrace)?;
    Ok((lines, place_at(closing), after))
}

/// Lines and locals, up to a closing brace.
#[cycle(line)]
fn entries(
    alloc: Global,
    level: usize,
    tokens: &[Token],
) -> Result<(Items<Line>, &[Token]), ParseError>
    ensures exact { Gives exact_error (λ x. (map source_line_of x.0, spots_of x.1.now)) result
        (entries most_binary_operators (line_read most_binary_operators level) level
        ([], spots_of tokens.now)) }
    ensures within { IfOk result (λ x. length x.1.now ≤ length tokens.now) }
{
    let mut lines = Items::new(alloc);
    let mut after = tokens;
    'entries: while !begins_with(after, Mark::CloseBrace) {
        let (more, behind) = entry(alloc, level, after)?;
        lines.append(more)?;
        after = behind;
    }
    Ok((lines, after))
}

/// A declaration of locals, or a line.
#[cycle(line)]
fn entry(
    alloc: Global,
    level: usize,
    tokens: &[Token],
) -> Result<(Items<Line>, &[Token]), ParseError>
    ensures exact { Gives exact_error (λ x. (map source_line_of x.0, spots_of x.1.now)) result
        (entry most_binary_operators (line_read most_binary_operators level) level
        (spots_of tokens.now)) }
    ensures shorter { IfOk result (λ x. length x.1.now < length tokens.now) }
{
    if begins_with_keyword(tokens, Keyword::Int) {
        local(alloc, level, tail(tokens))
    } else {
        line(alloc, level, tokens)
    }
}

/// An `if`, which stands in front of the tokens.
#[cycle(line)]
fn if_line(
    alloc: Global,
    levels: usize,
    at: u32,
    tokens: &[Token],
) -> Result<(Items<Line>, &[Token]), ParseError>
    ensures exact { Gives exact_error (λ x. (map source_line_of x.0, spots_of x.1.now)) result
        (if_by most_binary_operators (line_read most_binary_operators) levels at
        (spots_of tokens.now)) }
    ensures shorter { IfOk result (λ x. length x.1.now < length tokens.now) }
{
    let level = deeper(levels, at)?;
    let (cond, after) = condition(alloc, level, tokens)?;
    let (yes, after) = line(alloc, level, after)?;
    let (no, after) = otherwise(alloc, level, after)?;
    Ok((single(alloc, Line::If { cond, yes, no })?, after))
}

/// The branch behind an `else`, where there is one.
#[cycle(line)]
fn otherwise(
    alloc: Global,
    level: usize,
    tokens: &[Token],
) -> Result<(Items<Line>, &[Token]), ParseError>
    ensures exact { Gives exact_error (λ x. (map source_line_of x.0, spots_of x.1.now)) result
        (otherwise (line_read most_binary_operators level) (spots_of tokens.now)) }
    ensures within { IfOk result (λ x. length x.1.now ≤ length tokens.now) }
{
    if begins_with_keyword(tokens, Keyword::Else) {
        line(alloc, level, tail(tokens))
    } else {
        Ok((Items::new(alloc), tokens))
    }
}

/// The list of one loop.
fn loop_line(
    alloc: Global,
    init: Items<Line>,
    cond: Expr,
    step: Items<Line>,
    body: Items<Line>,
    first: bool,
) -> Result<Items<Line>, ParseError>
    ensures { Gives exact_error (λ x. map source_line_of x) result
        (Ok (Loop (lines_from (map source_line_of init)) (source_expr_of cond)
        (lines_from (map source_line_of step)) (lines_from (map source_line_of body)) first ∷ [])) }
{
    let made = Line::Loop {
        init,
        cond,
        step,
        body,
        first,
    };
    single(alloc, made)
}

/// A `while`, which stands in front of the tokens.
#[cycle(line)]
fn while_line(
    alloc: Global,
    levels: usize,
    at: u32,
    tokens: &[Token],
) -> Result<(Items<Line>, &[Token]), ParseError>
    ensures exact { Gives exact_error (λ x. (map source_line_of x.0, spots_of x.1.now)) result
        (while_by most_binary_operators (line_read most_binary_operators) levels at
        (spots_of tokens.now)) }
    ensures shorter { IfOk result (λ x. length x.1.now < length tokens.now) }
{
    let level = deeper(levels, at)?;
    let (cond, after) = condition(alloc, level, tokens)?;
    let (body, after) = line(alloc, level, after)?;
    let none = Items::new(alloc);
    let made = loop_line(alloc, none, cond, Items::new(alloc), body, false)?;
    Ok((made, after))
}

/// A `do`, which stands in front of the tokens.
#[cycle(line)]
fn do_line(
    alloc: Global,
    levels: usize,
    at: u32,
    tokens: &[Token],
) -> Result<(Items<Line>, &[Token]), ParseError>
    ensures exact { Gives exact_error (λ x. (map source_line_of x.0, spots_of x.1.now)) result
        (do_by most_binary_operators (line_read most_binary_operators) levels at
        (spots_of tokens.now)) }
    ensures shorter { IfOk result (λ x. length x.1.now < length tokens.now) }
{
    let level = deeper(levels, at)?;
    let (body, after) = line(alloc, level, tokens)?;
    let after = past_keyword(after, Keyword::While)?;
    let (cond, after) = condition(alloc, level, after)?;
    let after = past(after, Mark::Semi)?;
    let none = Items::new(alloc);
    let made = loop_line(alloc, none, cond, Items::new(alloc), body, true)?;
    Ok((made, after))
}

/// A `for`, which stands in front of the tokens.
#[cycle(line)]
fn for_line(
    alloc: Global,
    levels: usize,
    at: u32,
    tokens: &[Token],
) -> Result<(Items<Line>, &[Token]), ParseError>
    ensures exact { Gives exact_error (λ x. (map source_line_of x.0, spots_of x.1.now)) result
        (for_parts most_binary_operators (line_read most_binary_operators) levels at
        (spots_of tokens.now)) }
    ensures shorter { IfOk result (λ x. length x.1.now < length tokens.now) }
{
    let level = deeper(levels, at)?;
    let (init, after) = for_begin(alloc, level, tokens)?;
    let (cond, after) = for_condition(alloc, level, after)?;
    let (step, after) = for_end(alloc, level, after)?;
    let (body, after) = line(alloc, level, after)?;
    Ok((loop_line(alloc, init, cond, step, body, false)?, after))
}

/// The beginning of a `for`, up to behind the first semicolon in its brackets.
fn for_begin(
    alloc: Global,
    level: usize,
    tokens: &[Token],
) -> Result<(Items<Line>, &[Token]), ParseError>
    ensures exact { Gives exact_error (λ x. (map source_line_of x.0, spots_of x.1.now)) result
        (for_begin most_binary_operators level (spots_of tokens.now)) }
    ensures shorter { IfOk result (λ x. length x.1.now < length tokens.now) }
{
    let inside = past(tokens, Mark::OpenRound)?;
    init(alloc, level, inside)
}

/// What stands behind the condition of a `for`, up to behind its closing bracket: the step.
fn for_end(
    alloc: Global,
    level: usize,
    tokens: &[Token],
) -> Result<(Items<Line>, &[Token]), ParseError>
    ensures exact { Gives exact_error (λ x. (map source_line_of x.0, spots_of x.1.now)) result
        (for_end most_binary_operators level (spots_of tokens.now)) }
    ensures shorter { IfOk result (λ x. length x.1.now < length tokens.now) }
{
    let after = past(tokens, Mark::Semi)?;
    let (step, after) = for_step(alloc, level, after)?;
    let after = past(after, Mark::CloseRound)?;
    Ok((step, after))
}

/// What stands first in the brackets of `for`, with its semicolon.
fn init(
    alloc: Global,
    level: usize,
    tokens: &[Token],
) -> Result<(Items<Line>, &[Token]), ParseError>
    ensures exact { Gives exact_error (λ x. (map source_line_of x.0, spots_of x.1.now)) result
        (init most_binary_operators level (spots_of tokens.now)) }
    ensures within { IfOk result (λ x. length x.1.now ≤ length tokens.now) }
{
    if begins_with_keyword(tokens, Keyword::Int) {
        return local(alloc, level, tail(tokens));
    }
    if begins_with(tokens, Mark::Semi) {
        Ok((Items::new(alloc), tail(tokens)))
    } else {
        simple_line(alloc, level, tokens)
    }
}

/// The condition of a `for`: 1, at the semicolon behind it, where it is missing.
fn for_condition(
    alloc: Global,
    level: usize,
    tokens: &[Token],
) -> Result<(Expr, &[Token]), ParseError>
    ensures exact { Gives exact_error (λ x. (source_expr_of x.0, spots_of x.1.now)) result
        (for_condition most_binary_operators level (spots_of tokens.now)) }
    ensures within { IfOk result (λ x. length x.1.now ≤ length tokens.now) }
{
    if begins_with(tokens, Mark::Semi) {
        Ok((Expr::Lit(place_at(tokens), 1), tokens))
    } else {
        whole(alloc, level, tokens)
    }
}

/// The step of a `for`, where there is one.
fn for_step(
    alloc: Global,
    level: usize,
    tokens: &[Token],
) -> Result<(Items<Line>, &[Token]), ParseError>
    ensures exact { Gives exact_error (λ x. (map source_line_of x.0, spots_of x.1.now)) result
        (for_step most_binary_operators level (spots_of tokens.now)) }
    ensures within { IfOk result (λ x. length x.1.now ≤ length tokens.now) }
{
    if begins_with(tokens, Mark::CloseRound) {
        return Ok((Items::new(alloc), tokens));
    }
    let (step, after) = simple(alloc, level, tokens)?;
    Ok((single(alloc, step)?, after))
}

/// An expression in brackets.
fn condition(alloc: Global, level: usize, tokens: &[Token]) -> Result<(Expr, &[Token]), ParseError>
    ensures exact { Gives exact_error (λ x. (source_expr_of x.0, spots_of x.1.now)) result
        (condition most_binary_operators level (spots_of tokens.now)) }
    ensures shorter { IfOk result (λ x. length x.1.now < length tokens.now) }
{
    let inside = past(tokens, Mark::OpenRound)?;
    let (cond, after) = whole(alloc, level, inside)?;
    let after = past(after, Mark::CloseRound)?;
    Ok((cond, after))
}

/// An assignment, a count or a call, and its semicolon.
fn simple_line(
    alloc: Global,
    levels: usize,
    tokens: &[Token],
) -> Result<(Items<Line>, &[Token]), ParseError>
    ensures exact { Gives exact_error (λ x. (map source_line_of x.0, spots_of x.1.now)) result
        (simple_line most_binary_operators levels (spots_of tokens.now)) }
    ensures shorter { IfOk result (λ x. length x.1.now < length tokens.now) }
{
    let (line, after) = simple(alloc, levels, tokens)?;
    let lines = single(alloc, line)?;
    let after = past(after, Mark::Semi)?;
    Ok((lines, after))
}

/// A line that is made, and its semicolon.
fn single_line(
    alloc: Global,
    line: Line,
    tokens: &[Token],
) -> Result<(Items<Line>, &[Token]), ParseError>
    ensures exact { Gives exact_error (λ x. (map source_line_of x.0, spots_of x.1.now)) result
        (single_by (source_line_of line) (spots_of tokens.now)) }
    ensures shorter { IfOk result (λ x. length x.1.now < length tokens.now) }
{
    let lines = single(alloc, line)?;
    let after = past(tokens, Mark::Semi)?;
    Ok((lines, after))
}

/// The value of a `return`, where there is one.
fn return_value(
    alloc: Global,
    levels: usize,
    tokens: &[Token],
) -> Result<(Option<Expr>, &[Token]), ParseError>
    ensures exact { Gives exact_error (λ x. (option_map source_expr_of x.0, spots_of x.1.now)) result
        (return_value most_binary_operators levels (spots_of tokens.now)) }
    ensures within { IfOk result (λ x. length x.1.now ≤ length tokens.now) }
{
    if begins_with(tokens, Mark::Semi) {
        return Ok((None, tokens));
    }
    let (value, after) = whole(alloc, levels, tokens)?;
    Ok((Some(value), after))
}

/// A `return`, which stands in front of the tokens.
fn return_line(
    alloc: Global,
    levels: usize,
    at: u32,
    tokens: &[Token],
) -> Result<(Items<Line>, &[Token]), ParseError>
    ensures exact { Gives exact_error (λ x. (map source_line_of x.0, spots_of x.1.now)) result
        (return_by most_binary_operators levels at (spots_of tokens.now)) }
    ensures shorter { IfOk result (λ x. length x.1.now < length tokens.now) }
{
    let (value, after) = return_value(alloc, levels, tokens)?;
    let lines = single(alloc, Line::Return { at, value })?;
    let after = past(after, Mark::Semi)?;
    Ok((lines, after))
}
