ghost use Rattle.std.specs.Prelude.{◌≡◌, ◌+◌, ◌<◌, ◌≤◌, ◌^◌, ◌++◌, length, IfOk};
ghost use Rattle.std.specs.List.{range_with_len};
ghost use Rattle.polyhedra.specs.Vocabulary.{IsVocabulary};
ghost use Rattle.syntax_tree.specs.WellFormed.{IsWellFormed};
ghost use Rattle.syntax_tree.specs.declared.program.Proc.{Proc as Procedure};
ghost use Rattle.vocabularies.specs.Ends.{entry_width};
ghost use Rattle.vocabularies.specs.Procs.{IsProcOf};
ghost use Rattle.point_steps.specs.Parts.{ArePointEnds};
ghost use Rattle.point_steps.specs.States.{ends_of, remembered_count, with_named_columns};

use crate::telling::copies_of;
use items::Items;
use polyhedra::Vocabulary;
use std::alloc::{AllocError, Global};
use syntax_tree::Program;
use vocabularies::{full, start};

/// How many columns a formula may have afterwards where it is fitted.
const MOST_FITTED_COLUMNS: u32 = 63;

/// The ends of the state of a point: how many columns the states and the entry of its procedure
/// have, how many of the entry's are remembered, and the vocabularies of the program's start and of
/// points.
#[derive(Drop)]
pub(crate) struct PointEnds {
    pub(crate) columns: u32,
    pub(crate) entry: u32,
    pub(crate) remembered: u32,
    pub(crate) start: Vocabulary,
    pub(crate) point: Vocabulary,
}

pub(crate) fn ends_of(alloc: Global, program: &Program, proc: u32) -> Result<PointEnds, AllocError>
    requires formed { IsWellFormed program.now }
    requires procedure { proc < length program.now.procs }
    ensures exact { (p : Procedure) → IsProcOf program.now proc p
        → IfOk result (λ ends. ends ≡ ends_of program.now p) }
    ensures known { IfOk result ArePointEnds }
{
    let start = start(alloc, program)?;
    let full = full(alloc, program, proc)?;
    let columns = full.columns();
    let entry = entry_width(program, proc);
    let remembered = remembered_count(columns, entry);
    let point = with_named_columns(alloc, remembered, &full)?;
    Ok(PointEnds {
        columns,
        entry,
        remembered,
        start,
        point,
    })
}

/// How many columns the entry of a procedure has.
fn entry_width(program: &Program, proc: u32) -> u32
    requires formed { IsWellFormed program.now }
    requires procedure { proc < length program.now.procs }
    ensures { (p : Procedure) → IsProcOf program.now proc p
        → result ≡ entry_width program.now p }
{
    program.globals.len() as u32 + program.procs.as_slice()[proc as usize].params
}

/// As many columns of the entry as can be fitted with those of the procedure.
fn remembered_count(columns: u32, entry: u32) -> u32
    requires columns { columns ≤ 63 }
    requires entry { entry ≤ 63 }
    ensures { result ≡ remembered_count columns entry }
{
    if columns + entry <= MOST_FITTED_COLUMNS {
        entry
    } else {
        MOST_FITTED_COLUMNS - columns
    }
}

/// The vocabulary with so many columns more, which are named.
fn with_named_columns(alloc: Global, more: u32, voc: &Vocabulary) -> Result<Vocabulary, AllocError>
    requires few { voc.now.columns + more < 2 ^ 32 }
    ensures { IfOk result (λ wide. wide ≡ with_named_columns more voc.now) }
{
    let columns = voc.columns();
    let mut named = Items::from_slice(alloc, voc.named_columns())?;
    named.append(columns_from(alloc, columns, more)?)?;
    let harvested = copies_of(alloc, voc.harvested_terms())?;
    let extra = Items::new(alloc);
    Ok(Vocabulary::from_parts(columns + more, named, harvested, voc.rule(), extra))
}

/// So many columns from one on.
pub(crate) fn columns_from(alloc: Global, first: u32, count: u32) -> Result<Items<u32>, AllocError>
    requires { first + count < 2 ^ 32 }
    ensures { IfOk result (λ columns. columns ≡ range_with_len first count) }
{
    let mut columns = Items::new(alloc);
    for column in first..first + count {
        columns.push(column)?;
    }
    Ok(columns)
}
