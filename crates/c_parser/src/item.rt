ghost use Rattle.std.specs.Prelude.{◌≡◌, ◌≢◌, ◌<◌, ◌≤◌, [], ◌∷◌, ◌++◌, Ok, IfErr, IfOk, OnOk, length, map};
ghost use Rattle.items.specs.Gives.{Gives};
ghost use Rattle.c_parser.specs.Descent.{exact_error};
ghost use Rattle.c_parser.specs.SourceItem.{parameter_of, source_item_of};
ghost use Rattle.c_parser.specs.Spots.{spots_of};
ghost use Rattle.c_parser.specs.Texts.{at_end, behind_signature, behind_type, behind_word, body, constant, declaration, globals, initial, more_slots, negative_at, next_shared, number_at, procedure, global_item, shared_list, signature, slot, slot_list, text, typed_declaration};
ghost use Rattle.c_parser.specs.Limits.{most_binary_operators};

use crate::ParseError;
use crate::expression::name_copy;
use crate::line::block;
use crate::rest::{deeper, tail};
use crate::tokens::{
    Word, begins_with, begins_with_keyword, past, past_keyword, place_at, refusal_of, word_at,
};
use c_lexer::{Keyword, Mark, Token, TokenKind};
use items::Items;
use std::alloc::Global;
use syntax_tree::{Item, Name, Param};

/// The number that has to stand first.
#[tactic(auto, using(crate::proofs::FirstTokens::refused_no_memory))]
fn number_at(tokens: &[Token]) -> Result<(i128, &[Token]), ParseError>
    ensures exact { Gives exact_error (λ x. (x.0, spots_of x.1.now)) result
        (number_at (spots_of tokens.now)) }
    ensures shorter { IfOk result (λ x. length x.1.now < length tokens.now) }
    ensures memory { IfErr result (λ e. e ≢ ParseError.Memory) }
{
    match tokens {
        [] => Err(ParseError::Syntax(0)),
        [token, rest @ ..] => match &token.kind {
            TokenKind::Number(value) => Ok((*value, rest)),
            _ => Err(refusal_of(tokens)),
        },
    }
}

/// The opposite of the number that has to stand first, which has no sign of its own.
#[tactic(auto, using(crate::proofs::FirstTokens::refused_no_memory))]
fn negative_at(tokens: &[Token]) -> Result<(i128, &[Token]), ParseError>
    ensures exact { Gives exact_error (λ x. (x.0, spots_of x.1.now)) result
        (negative_at (spots_of tokens.now)) }
    ensures shorter { IfOk result (λ x. length x.1.now < length tokens.now) }
    ensures memory { IfErr result (λ e. e ≢ ParseError.Memory) }
{
    let (value, after) = number_at(tokens)?;
    if value < 0 {
        Err(refusal_of(tokens))
    } else {
        Ok((-value, after))
    }
}

/// A number, with a minus or without.
fn constant(tokens: &[Token]) -> Result<(i128, &[Token]), ParseError>
    ensures exact { Gives exact_error (λ x. (x.0, spots_of x.1.now)) result
        (constant (spots_of tokens.now)) }
    ensures within { IfOk result (λ x. length x.1.now ≤ length tokens.now) }
    ensures memory { IfErr result (λ e. e ≢ ParseError.Memory) }
{
    if begins_with(tokens, Mark::Minus) {
        negative_at(tail(tokens))
    } else {
        number_at(tokens)
    }
}

/// The number that a global begins with: 0 where none is told.
fn initial(tokens: &[Token]) -> Result<(i128, &[Token]), ParseError>
    ensures exact { Gives exact_error (λ x. (x.0, spots_of x.1.now)) result
        (initial (spots_of tokens.now)) }
    ensures within { IfOk result (λ x. length x.1.now ≤ length tokens.now) }
    ensures memory { IfErr result (λ e. e ≢ ParseError.Memory) }
{
    if begins_with(tokens, Mark::Assign) {
        constant(tail(tokens))
    } else {
        Ok((0, tokens))
    }
}

/// A global, whose name is read.
fn global_item(word: Word) -> Result<(Item, &[Token]), ParseError>
    ensures exact { Gives exact_error (λ x. (source_item_of x.0, spots_of x.1.now)) result
        (global_item (record
        { at = word.entry.at; name = word.entry.name.now; rest = spots_of word.entry.rest.now })) }
    ensures within { IfOk result (λ x. length x.1.now ≤ length word.entry.rest.now) }
{
    let (init, after) = initial(word.rest)?;
    let name = name_copy(word.name)?;
    let at = word.at;
    Ok((Item::Global { name, at, init }, after))
}

/// A global.
fn next_shared(tokens: &[Token]) -> Result<(Item, &[Token]), ParseError>
    ensures exact { Gives exact_error (λ x. (source_item_of x.0, spots_of x.1.now)) result
        (next_shared (spots_of tokens.now)) }
    ensures shorter { IfOk result (λ x. length x.1.now < length tokens.now) }
{
    let word = word_at(tokens)?;
    global_item(word)
}

/// The globals that go on behind these, each with its comma in front.
fn shared_list<'a>(
    first: Items<Item>,
    tokens: &'a [Token],
) -> Result<(Items<Item>, &'a [Token]), ParseError>
    ensures exact { Gives exact_error (λ x. (map source_item_of x.0, spots_of x.1.now)) result
        (shared_list (map source_item_of first, spots_of tokens.now)) }
    ensures within { IfOk result (λ x. length x.1.now ≤ length tokens.now) }
{
    let mut items = first;
    let mut after = tokens;
    'more: while begins_with(after, Mark::Comma) {
        let (next, behind) = next_shared(tail(after))?;
        items.push(next)?;
        after = behind;
    }
    Ok((items, after))
}

/// The list of one declaration.
fn single(alloc: Global, item: Item) -> Result<Items<Item>, ParseError>
    ensures { Gives exact_error (λ x. map source_item_of x) result (Ok (source_item_of item ∷ [])) }
{
    let mut items = Items::new(alloc);
    items.push(item)?;
    Ok(items)
}

/// Globals, of which the first name is read, and their semicolon.
fn globals<'a>(alloc: Global, word: Word<'a>) -> Result<(Items<Item>, &'a [Token]), ParseError>
    ensures exact { Gives exact_error (λ x. (map source_item_of x.0, spots_of x.1.now)) result
        (globals (record
        { at = word.entry.at; name = word.entry.name.now; rest = spots_of word.entry.rest.now })) }
    ensures shorter { IfOk result (λ x. length x.1.now < length word.entry.rest.now) }
{
    let (first, after) = global_item(word)?;
    let (items, after) = shared_list(single(alloc, first)?, after)?;
    let after = past(after, Mark::Semi)?;
    Ok((items, after))
}

/// How many parameters there are so far, those of them that have names, and what is left behind
/// them.
#[derive(Drop)]
struct Slots<'a> {
    count: u32,
    named: Items<Param>,
    rest: &'a [Token],
}

/// Puts a parameter behind others.
fn push_parameter(named: &mut Items<Param>, name: &Name, at: u32) -> Result<(), ParseError>
    ensures memory { IfErr result (λ e. e ≡ ParseError.Memory) }
    ensures ok { OnOk result (named.new ≡ named.old ++ record { name = name.now; at = at } ∷ []) }
{
    let name = name_copy(name)?;
    named.push(Param { name, at })?;
    Ok(())
}

/// One parameter more. A number of parameters past 32 bits is want of memory.
fn slot<'a>(slots: Slots<'a>, tokens: &'a [Token]) -> Result<Slots<'a>, ParseError>
    ensures exact { Gives exact_error
        (λ x. record {
          count = x.count;
          named = map parameter_of x.named;
          rest = spots_of
              x.rest.now;
        }) result
        (slot (record {
          count = slots.entry.count;
          named = map parameter_of slots.entry.named;
          rest = spots_of
              slots.entry.rest.now;
        }) (spots_of tokens.now)) }
    ensures shorter { IfOk result (λ x. length x.rest.now < length tokens.now) }
{
    let rest = past_keyword(tokens, Keyword::Int)?;
    let Slots {
        count,
        mut named,
        ..
    } = slots;
    let count = count.checked_add(1).ok_or(ParseError::Memory)?;
    match rest {
        [token, behind @ ..] => match &token.kind {
            TokenKind::Word(name) => {
                push_parameter(&mut named, name, token.at)?;
                Ok(Slots {
                    count,
                    named,
                    rest: behind,
                })
            }
            _ => Ok(Slots { count, named, rest }),
        },
        [] => Ok(Slots { count, named, rest }),
    }
}

/// The parameters that go on behind these, each with its comma in front.
fn more_slots(first: Slots) -> Result<Slots, ParseError>
    ensures exact { Gives exact_error
        (λ x. record {
          count = x.count;
          named = map parameter_of x.named;
          rest = spots_of
              x.rest.now;
        }) result
        (more_slots (record {
          count = first.entry.count;
          named = map parameter_of first.entry.named;
          rest = spots_of
              first.entry.rest.now;
        })) }
    ensures within { IfOk result (λ x. length x.rest.now ≤ length first.entry.rest.now) }
{
    let mut slots = first;
    'more: while begins_with(slots.rest, Mark::Comma) {
        let tokens = tail(slots.rest);
        slots = slot(slots, tokens)?;
    }
    Ok(slots)
}

/// Parameters with commas between them.
fn slot_list(alloc: Global, tokens: &[Token]) -> Result<Slots, ParseError>
    ensures exact { Gives exact_error
        (λ x. record {
          count = x.count;
          named = map parameter_of x.named;
          rest = spots_of
              x.rest.now;
        }) result (slot_list (spots_of tokens.now)) }
    ensures shorter { IfOk result (λ x. length x.rest.now < length tokens.now) }
{
    let none = Slots {
        count: 0,
        named: Items::new(alloc),
        rest: tokens,
    };
    let first = slot(none, tokens)?;
    more_slots(first)
}

/// What stands in the brackets of a procedure: how many parameters are told, how many there are,
/// those that have names, and what is left.
#[derive(Drop)]
struct Signature<'a> {
    told: Option<u32>,
    count: u32,
    named: Items<Param>,
    rest: &'a [Token],
}

/// The parameters in the brackets of a procedure.
fn signature_at(alloc: Global, tokens: &[Token]) -> Result<Signature, ParseError>
    ensures exact { Gives exact_error
        (λ x. record {
          told = x.told;
          count = x.count;
          named = map parameter_of x.named;
          rest = spots_of x.rest.now;
        }) result (signature (spots_of tokens.now)) }
    ensures within { IfOk result (λ x. length x.rest.now ≤ length tokens.now) }
{
    if begins_with_keyword(tokens, Keyword::Void) {
        return Ok(Signature {
            told: Some(0),
            count: 0,
            named: Items::new(alloc),
            rest: tail(tokens),
        });
    }
    if begins_with_keyword(tokens, Keyword::Int) {
        let Slots { count, named, rest } = slot_list(alloc, tokens)?;
        return Ok(Signature {
            told: Some(count),
            count,
            named,
            rest,
        });
    }
    Ok(Signature {
        told: None,
        count: 0,
        named: Items::new(alloc),
        rest: tokens,
    })
}

/// What is known of a procedure in front of its brackets.
#[derive(Drop)]
struct Head {
    outside: bool,
    returns: bool,
    at: u32,
    name: Name,
}

/// A procedure, whose brace stands first.
#[tactic(auto, using(crate::proofs::Lines::listed))]
fn body<'a>(
    alloc: Global,
    levels: usize,
    head: Head,
    params: Items<Param>,
    tokens: &'a [Token],
) -> Result<(Items<Item>, &'a [Token]), ParseError>
    requires { 0 < length tokens.now }
    ensures exact { Gives exact_error (λ x. (map source_item_of x.0, spots_of x.1.now)) result
        (body most_binary_operators levels
        (record { outside = head.outside; returns = head.returns; at = head.at; name = head.name })
        (map parameter_of params) (spots_of tokens.now)) }
    ensures shorter { IfOk result (λ x. length x.1.now < length tokens.now) }
{
    let level = deeper(levels, place_at(tokens))?;
    let (lines, end, after) = block(alloc, level, tail(tokens))?;
    let Head {
        returns,
        at,
        name,
        ..
    } = head;
    let item = Item::Body {
        name,
        at,
        returns,
        params,
        lines,
        end,
    };
    Ok((single(alloc, item)?, after))
}

/// What goes on behind the brackets of a procedure: a semicolon, or its body.
fn behind_signature<'a>(
    alloc: Global,
    levels: usize,
    head: Head,
    signature: Signature,
    tokens: &'a [Token],
) -> Result<(Items<Item>, &'a [Token]), ParseError>
    ensures exact { Gives exact_error (λ x. (map source_item_of x.0, spots_of x.1.now)) result
        (behind_signature most_binary_operators levels
        (record { outside = head.outside; returns = head.returns; at = head.at; name = head.name })
        (record {
          told = signature.entry.told;
          count = signature.entry.count;
          named = map
              parameter_of signature.entry.named;
          rest = spots_of signature.entry.rest.now;
        })
        (spots_of tokens.now)) }
    ensures shorter { IfOk result (λ x. length x.1.now < length tokens.now) }
{
    let Signature {
        told,
        count,
        named,
        ..
    } = signature;
    if begins_with(tokens, Mark::Semi) {
        let Head {
            returns,
            at,
            name,
            ..
        } = head;
        let item = Item::Proto {
            name,
            at,
            returns,
            params: told,
        };
        return Ok((single(alloc, item)?, tail(tokens)));
    }
    if begins_with(tokens, Mark::OpenBrace) && !head.outside && named.len() == count as usize {
        body(alloc, levels, head, named, tokens)
    } else {
        Err(refusal_of(tokens))
    }
}

/// A prototype or a procedure, behind its opening bracket.
fn procedure(
    alloc: Global,
    levels: usize,
    head: Head,
    tokens: &[Token],
) -> Result<(Items<Item>, &[Token]), ParseError>
    ensures exact { Gives exact_error (λ x. (map source_item_of x.0, spots_of x.1.now)) result
        (procedure most_binary_operators levels
        (record { outside = head.outside; returns = head.returns; at = head.at; name = head.name })
        (spots_of tokens.now)) }
    ensures shorter { IfOk result (λ x. length x.1.now < length tokens.now) }
{
    let signature = signature_at(alloc, tokens)?;
    let after = past(signature.rest, Mark::CloseRound)?;
    behind_signature(alloc, levels, head, signature, after)
}

/// What is declared under a name: a procedure or globals.
fn behind_word<'a>(
    alloc: Global,
    levels: usize,
    outside: bool,
    returns: bool,
    word: Word<'a>,
) -> Result<(Items<Item>, &'a [Token]), ParseError>
    ensures exact { Gives exact_error (λ x. (map source_item_of x.0, spots_of x.1.now)) result
        (behind_word most_binary_operators levels outside returns
        (record {
          at = word.entry.at;
          name = word.entry.name.now;
          rest = spots_of
              word.entry.rest.now;
        })) }
    ensures shorter { IfOk result (λ x. length x.1.now < length word.entry.rest.now) }
{
    if begins_with(word.rest, Mark::OpenRound) {
        let head = Head {
            outside,
            returns,
            at: word.at,
            name: name_copy(word.name)?,
        };
        return procedure(alloc, levels, head, tail(word.rest));
    }
    if returns && !outside {
        globals(alloc, word)
    } else {
        Err(refusal_of(word.rest))
    }
}

/// What is declared behind a type.
fn behind_type(
    alloc: Global,
    levels: usize,
    outside: bool,
    returns: bool,
    tokens: &[Token],
) -> Result<(Items<Item>, &[Token]), ParseError>
    ensures exact { Gives exact_error (λ x. (map source_item_of x.0, spots_of x.1.now)) result
        (behind_type most_binary_operators levels outside returns (spots_of tokens.now)) }
    ensures shorter { IfOk result (λ x. length x.1.now < length tokens.now) }
{
    let word = word_at(tokens)?;
    behind_word(alloc, levels, outside, returns, word)
}

/// A declaration, behind its `extern` where it has one.
fn typed_declaration(
    alloc: Global,
    levels: usize,
    outside: bool,
    tokens: &[Token],
) -> Result<(Items<Item>, &[Token]), ParseError>
    ensures exact { Gives exact_error (λ x. (map source_item_of x.0, spots_of x.1.now)) result
        (typed_declaration most_binary_operators levels outside (spots_of tokens.now)) }
    ensures shorter { IfOk result (λ x. length x.1.now < length tokens.now) }
{
    if begins_with_keyword(tokens, Keyword::Int) {
        return behind_type(alloc, levels, outside, true, tail(tokens));
    }
    if begins_with_keyword(tokens, Keyword::Void) {
        behind_type(alloc, levels, outside, false, tail(tokens))
    } else {
        Err(refusal_of(tokens))
    }
}

/// A declaration of a text: globals, a prototype or a procedure.
fn declaration(
    alloc: Global,
    levels: usize,
    tokens: &[Token],
) -> Result<(Items<Item>, &[Token]), ParseError>
    ensures exact { Gives exact_error (λ x. (map source_item_of x.0, spots_of x.1.now)) result
        (declaration most_binary_operators levels (spots_of tokens.now)) }
    ensures shorter { IfOk result (λ x. length x.1.now < length tokens.now) }
{
    if begins_with_keyword(tokens, Keyword::Extern) {
        typed_declaration(alloc, levels, true, tail(tokens))
    } else {
        typed_declaration(alloc, levels, false, tokens)
    }
}

fn at_end(tokens: &[Token]) -> bool
    ensures { result ≡ at_end (spots_of tokens.now) }
{
    match tokens {
        [token, ..] => match token.kind {
            TokenKind::End => true,
            _ => false,
        },
        [] => false,
    }
}

/// The declarations up to the end of the text, and what is left there.
pub(crate) fn text(
    alloc: Global,
    levels: usize,
    tokens: &[Token],
) -> Result<(Items<Item>, &[Token]), ParseError>
    ensures { Gives exact_error (λ x. (map source_item_of x.0, spots_of x.1.now)) result
        (text most_binary_operators levels ([], spots_of tokens.now)) }
{
    let mut items = Items::new(alloc);
    let mut after = tokens;
    'text: while !at_end(after) {
        let (more, behind) = declaration(alloc, levels, after)?;
        items.append(more)?;
        after = behind;
    }
    Ok((items, after))
}
