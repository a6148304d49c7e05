ghost use Rattle.std.specs.Prelude.{IfOk, IsTrue};
ghost use Rattle.items.specs.Gives.{Gives};
ghost use Rattle.syntax_tree.specs.WellFormed.{IsWellFormed};
ghost use Rattle.typing.specs.Faults.{cause, elaboration_of};
ghost use Rattle.typing.specs.Operators.{items_have_few};

use std::alloc::Global;
use syntax_tree::{Program, Tree};
use typing::TypeError;

/// The core program of the tree of a text with `length` bytes.
pub fn elaborate(alloc: Global, tree: &Tree, length: u32) -> Result<Program, TypeError>
    ensures exact { Gives cause (λ p. p) result (elaboration_of tree.now.items length) }
    ensures well_formed { IsTrue (items_have_few tree.now.items) → IfOk result IsWellFormed }
{
    typing::elaborate(alloc, tree, length)
}
