ghost use Rattle.std.specs.Prelude.{◌≡◌, ◌<◌, ◌-◌, length, take, IfOk};
ghost use Rattle.syntax_tree.specs.WellFormed.{IsWellFormed};
ghost use Rattle.syntax_tree.specs.declared.program.Proc.{Proc as Procedure};
ghost use Rattle.vocabularies.specs.Ends.{entry_width};
ghost use Rattle.vocabularies.specs.Procs.{IsProcOf};
ghost use Rattle.context.specs.Ends.{IsPlace};
ghost use Rattle.context.specs.Verdicts.{place_of, shown_columns_of};

use items::Items;
use polyhedra::Vocabulary;
use std::alloc::{AllocError, Global};
use syntax_tree::Program;
use vocabularies::{full, start};

/// Where an assertion stands: how many columns its procedure's entry and its states have, the
/// vocabularies of the program's start and of these states, and the columns that are told.
#[derive(Debug, Drop)]
pub(crate) struct AssertionPlace {
    pub(crate) entry: u32,
    pub(crate) columns: u32,
    pub(crate) start: Vocabulary,
    pub(crate) full: Vocabulary,
    pub(crate) shown: Items<u32>,
}

pub(crate) fn place_of(
    alloc: Global,
    program: &Program,
    proc: u32,
) -> Result<AssertionPlace, AllocError>
    requires formed { IsWellFormed program.now }
    requires procedure { proc < length program.now.procs }
    ensures exact { (p : Procedure) → IsProcOf program.now proc p
        → IfOk result (λ place. place ≡ place_of program.now p) }
    ensures known { IfOk result IsPlace }
{
    let start = start(alloc, program)?;
    let full = full(alloc, program, proc)?;
    let shown = shown_columns(alloc, &full)?;
    let _ = start.columns();
    let columns = full.columns();
    let entry = entry_width(program, proc);
    Ok(AssertionPlace {
        entry,
        columns,
        start,
        full,
        shown,
    })
}

/// All named columns but the returned value, which is the last.
fn shown_columns(alloc: Global, full: &Vocabulary) -> Result<Items<u32>, AllocError>
    requires { 0 < length full.now.named }
    ensures { IfOk result (λ shown. shown ≡ take (length full.now.named - 1) full.now.named) }
{
    let named = full.named_columns();
    Items::from_slice(alloc, &named[..named.len() - 1])
}

/// How many columns the entry of a procedure has.
pub(crate) fn entry_width(program: &Program, proc: u32) -> u32
    requires formed { IsWellFormed program.now }
    requires procedure { proc < length program.now.procs }
    ensures { (p : Procedure) → IsProcOf program.now proc p
        → result ≡ entry_width program.now p }
{
    program.globals.len() as u32 + program.procs.as_slice()[proc as usize].params
}
