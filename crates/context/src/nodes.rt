ghost use Rattle.std.specs.Prelude.{◌≡◌, ◌<◌, ◌==◌, ◌++◌, [], length, IfOk};
ghost use Rattle.syntax_tree.specs.WellFormed.{IsWellFormed};
ghost use Rattle.syntax_tree.specs.declared.program.Proc.{Proc as Procedure};
ghost use Rattle.vocabularies.specs.Ends.{entry_of};
ghost use Rattle.vocabularies.specs.Procs.{IsProcOf};
ghost use Rattle.context.specs.Entries.{nodes_of, unless_main};

use items::Items;
use polyhedra::Vocabulary;
use std::alloc::{AllocError, Global};
use syntax_tree::Program;
use vocabularies::{entry, start};

/// The vocabularies of the entry graph's nodes: of the start, of the entry of `main`, and of those
/// of the other procedures in the order of the text.
pub(crate) fn nodes_of(alloc: Global, program: &Program) -> Result<Items<Vocabulary>, AllocError>
    requires { IsWellFormed program.now }
    ensures { IfOk result (λ nodes. nodes ≡ nodes_of program.now) }
{
    let mut nodes = Items::new(alloc);
    nodes.push(start(alloc, program)?)?;
    nodes.push(entry(alloc, program, program.main)?)?;
    for number in 0..program.procs.len() {
        nodes = with_other(alloc, program, number as u32, nodes)?;
    }
    Ok(nodes)
}

/// The vocabularies, and behind them that of a procedure's entry, but for `main`.
fn with_other(
    alloc: Global,
    program: &Program,
    number: u32,
    nodes: Items<Vocabulary>,
) -> Result<Items<Vocabulary>, AllocError>
    requires formed { IsWellFormed program.now }
    requires procedure { number < length program.now.procs }
    ensures { (p : Procedure) → IsProcOf program.now number p
        → IfOk result
        (λ all. all ≡ nodes ++ unless_main (number == program.now.main) (entry_of program.now p)
        []) }
{
    if number == program.main {
        return Ok(nodes);
    }
    let own = entry(alloc, program, number)?;
    let mut all = nodes;
    all.push(own)?;
    Ok(all)
}
