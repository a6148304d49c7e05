ghost use Rattle.std.specs.Prelude.{◌≡◌, ◌≤◌, ◌++◌, [], length, take, IfOk, OnOk};
ghost use Rattle.syntax_tree.specs.WellFormed.{IsWellFormed};
ghost use Rattle.analysis.specs.Analysis.{block_of, block_onto, blocks_by};
ghost use Rattle.analysis.specs.Judging.{column_names, global_names};

use crate::names::{add_names, global_names};
use items::Items;
use posing::Note;
use report::ProcBlock;
use std::alloc::{AllocError, Global};
use syntax_tree::{Name, Proc, Program};
use transition_formula::Formula;

/// A block for each procedure whose summary is known, in the order of the text.
pub(crate) fn blocks_by(
    alloc: Global,
    program: &Program,
    known: &[Option<Formula>],
    notes: &[Items<Note>],
) -> Result<Items<ProcBlock>, AllocError>
    requires formed { IsWellFormed program.now }
    requires known { length known.now ≡ length program.now.procs }
    requires notes { length notes.now ≡ length program.now.procs }
    ensures { IfOk result
        (λ blocks. blocks ≡ blocks_by program.now program.now.procs known.now notes.now) }
{
    let mut blocks = Items::new(alloc);
    for (place, p) in program.procs.as_slice().iter().enumerate() {
        add_block(alloc, program, p, &known[place], &notes[place], &mut blocks)?;
    }
    Ok(blocks)
}

fn add_block(
    alloc: Global,
    program: &Program,
    p: &Proc,
    formula: &Option<Formula>,
    notes: &Items<Note>,
    blocks: &mut Items<ProcBlock>,
) -> Result<(), AllocError>
    requires { p.now.params ≤ length p.now.columns }
    ensures { OnOk result
        (blocks.new ≡ blocks.old ++ block_onto program.now p.now formula.now notes.now []) }
{
    if let Some(formula) = formula {
        blocks.push(block_of(alloc, program, p, formula, notes)?)?;
    }
    Ok(())
}

fn block_of(
    alloc: Global,
    program: &Program,
    p: &Proc,
    formula: &Formula,
    notes: &Items<Note>,
) -> Result<ProcBlock, AllocError>
    requires { p.now.params ≤ length p.now.columns }
    ensures { IfOk result (λ block. block ≡ block_of program.now p.now formula.now notes.now) }
{
    Ok(ProcBlock {
        name: p.name.clone()?,
        before: entry_names(alloc, program, p)?,
        after: global_names(alloc, program)?,
        formula: formula.clone()?,
        notes: notes.clone()?,
    })
}

/// The names of the globals and the parameters.
fn entry_names(alloc: Global, program: &Program, p: &Proc) -> Result<Items<Name>, AllocError>
    requires { p.now.params ≤ length p.now.columns }
    ensures { IfOk result
        (λ names. names ≡ global_names program.now
        ++ column_names (take p.now.params p.now.columns)) }
{
    let mut names = global_names(alloc, program)?;
    let params = &p.columns.as_slice()[..p.params as usize];
    add_names(params, &mut names)?;
    Ok(names)
}
