ghost use Rattle.std.specs.Prelude.{◌≡◌, ◌≢◌, List, IsTrue, IfOk, IfErr};
ghost use Rattle.c_parser.specs.Reads.{ReadsWithinLimits};
ghost use Rattle.c_parser.specs.Refusals.{IsRefused};
ghost use Rattle.c_parser.specs.SourceItem.{SourceItem, source_items_of};
ghost use Rattle.c_parser.specs.Spots.{ends_once, spots_of};

use crate::item::text;
use crate::{MOST_LEVELS, ParseError};
use c_lexer::Token;
use std::alloc::Global;
use syntax_tree::Tree;

/// The tree of a text's tokens, of which the last one is `End` and no other is.
///
/// An error other than want of memory comes at the first token that no text within the limits has
/// behind those before it. It takes one pass over the tokens, and looks one token ahead.
pub fn parse(alloc: Global, tokens: &[Token]) -> Result<Tree, ParseError>
    requires { IsTrue (ends_once (spots_of tokens.now)) }

    // What is read is spelled by a derivation of its tree, within the limits.
    ensures found { IfOk result (λ tree. ReadsWithinLimits tokens.now (source_items_of tree)) }

    // What a derivation within the limits spells is read as its tree, but for want of memory.
    ensures complete { (items : List SourceItem) → ReadsWithinLimits tokens.now items
        → IfErr result (λ e. e ≡ ParseError.Memory)
        × IfOk result (λ tree. source_items_of tree ≡ items) }

    // What is told of the tokens is so.
    ensures refused { IfErr result (λ e. e ≢ ParseError.Memory → IsRefused tokens.now e) }

    // Why the tokens are refused is told, but for want of memory.
    ensures refusal { (e : ParseError) → IsRefused tokens.now e
        → IfErr result (λ told. told ≢ ParseError.Memory → told ≡ e) × IfOk result (λ _. ⊥) }
{
    let (items, _) = text(alloc, MOST_LEVELS, tokens)?;
    Ok(Tree { items })
}
