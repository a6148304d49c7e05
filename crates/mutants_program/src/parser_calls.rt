ghost use Rattle.std.specs.Prelude.{◌≡◌, ◌≢◌, List, IsTrue, IfOk, IfErr};
ghost use Rattle.c_parser.specs.Reads.{ReadsWithinLimits};
ghost use Rattle.c_parser.specs.Refusals.{IsRefused};
ghost use Rattle.c_parser.specs.SourceItem.{SourceItem, source_items_of};
ghost use Rattle.c_parser.specs.Spots.{ends_once, spots_of};

use c_lexer::Token;
use c_parser::ParseError;
use std::alloc::Global;
use syntax_tree::Tree;

/// The tree of a text's tokens.
pub fn parse(alloc: Global, tokens: &[Token]) -> Result<Tree, ParseError>
    requires { IsTrue (ends_once (spots_of tokens.now)) }
    ensures found { IfOk result (λ tree. ReadsWithinLimits tokens.now (source_items_of tree)) }
    ensures complete { (items : List SourceItem) → ReadsWithinLimits tokens.now items
        → IfErr result (λ e. e ≡ ParseError.Memory)
        × IfOk result (λ tree. source_items_of tree ≡ items) }
    ensures refused { IfErr result (λ e. e ≢ ParseError.Memory → IsRefused tokens.now e) }
    ensures refusal { (e : ParseError) → IsRefused tokens.now e
        → IfErr result (λ told. told ≢ ParseError.Memory → told ≡ e) × IfOk result (λ _. ⊥) }
{
    c_parser::parse(alloc, tokens)
}
