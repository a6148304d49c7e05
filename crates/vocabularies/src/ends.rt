ghost use Rattle.std.specs.Prelude.{◌≡◌, ◌+◌, ◌++◌, ◌∷◌, [], ◌<◌, ◌≤◌, ◌^◌, List, length, IfOk, OnOk};
ghost use Rattle.std.specs.List.{AllByRecursion, range_with_len};
ghost use Rattle.polyhedra.specs.Vocabulary.{IsDirectionOver, IsVocabulary};
ghost use Rattle.syntax_tree.specs.WellFormed.{IsWellFormed, IsProcFit};
ghost use Rattle.syntax_tree.specs.declared.program.Proc.{Proc as Procedure};
ghost use Rattle.vocabularies.specs.Ends.{entry_width, exit_width, value_width, named_columns_from, named_columns_of, terms_below, plain_vocabulary, full_of, entry_of, pair_of, exit_of, start_of};
ghost use Rattle.vocabularies.specs.Harvest.{harvest_of};
ghost use Rattle.vocabularies.specs.Procs.{IsProcOf};

use crate::comparisons::body_harvest;
use items::Items;
use linear_terms::Poly;
use polyhedra::Vocabulary;
use std::alloc::{AllocError, Global};
use syntax_tree::{Column, Proc, Program};

// ---- columns

/// The numbers of the first so many columns.
fn first_columns(alloc: Global, count: u32) -> Result<Items<u32>, AllocError>
    ensures { IfOk result (λ numbers. numbers ≡ range_with_len 0 count) }
{
    let mut numbers = Items::new(alloc);
    for number in 0..count {
        numbers.push(number)?;
    }
    Ok(numbers)
}

/// Adds the numbers of the columns that have a name.
fn add_named(first: u32, columns: &[Column], named: &mut Items<u32>) -> Result<(), AllocError>
    requires { first + length columns.now < 2 ^ 32 }
    ensures { OnOk result (named.new ≡ named.old ++ named_columns_from first columns.now) }
{
    let mut number = first;
    for column in columns {
        if column.name.is_some() {
            named.push(number)?;
        }
        number += 1;
    }
    Ok(())
}

/// The globals, the parameters, the named locals, and the value that is returned.
fn named_columns(alloc: Global, program: &Program, p: &Proc) -> Result<Items<u32>, AllocError>
    requires { length program.now.globals + length p.now.columns + 1 < 2 ^ 32 }
    ensures { IfOk result (λ named. named ≡ named_columns_of program.now p.now) }
{
    let globals = program.globals.len() as u32;
    let mut named = first_columns(alloc, globals)?;
    add_named(globals, p.columns.as_slice(), &mut named)?;
    named.push(globals + p.columns.len() as u32)?;
    Ok(named)
}

/// Those of the terms that are over the first so many columns alone.
fn terms_below(alloc: Global, columns: u32, terms: Items<Poly>) -> Result<Items<Poly>, AllocError>
    ensures { IfOk result (λ kept. kept ≡ terms_below columns terms) }
{
    let mut kept = Items::new(alloc);
    for term in terms {
        if term.is_covered(columns as usize, 0) {
            kept.push(term)?;
        }
    }
    Ok(kept)
}

// ---- vocabularies

/// A vocabulary in which all columns are named.
fn plain_vocabulary(
    alloc: Global,
    program: &Program,
    columns: u32,
    terms: Items<Poly>,
) -> Result<Vocabulary, AllocError>
    requires few { length terms ≤ 32 }
    requires terms { AllByRecursion (IsDirectionOver columns) terms }
    ensures { IfOk result (λ voc. voc ≡ plain_vocabulary program.now columns terms) }
{
    let named = first_columns(alloc, columns)?;
    let extra = Items::new(alloc);
    Ok(Vocabulary::from_parts(columns, named, terms, program.rule, extra))
}

/// The vocabulary of the states of a procedure: all its columns, of which the globals, the
/// parameters, the named locals and the returned value are named, with all terms that it compares.
pub fn full(alloc: Global, program: &Program, proc: u32) -> Result<Vocabulary, AllocError>
    requires formed { IsWellFormed program.now }
    requires there { proc < length program.now.procs }
    ensures { (p : Procedure) → IsProcOf program.now proc p
        → IfOk result (λ voc. voc ≡ full_of program.now p) }
{
    full_of(alloc, program, &program.procs.as_slice()[proc as usize])
}

#[tactic(auto, unfolding(crate::specs::Ends::full_of))]
fn full_of(alloc: Global, program: &Program, p: &Proc) -> Result<Vocabulary, AllocError>
    requires globals { length program.now.globals ≤ 16 }
    requires fit { IsProcFit program.now p.now }
    ensures { IfOk result (λ voc. voc ≡ full_of program.now p.now) }
{
    let columns = (program.globals.len() + p.columns.len() + 1) as u32;
    let named = named_columns(alloc, program, p)?;
    let harvested = body_harvest(alloc, p.body.as_slice())?;
    let extra = Items::new(alloc);
    Ok(Vocabulary::from_parts(columns, named, harvested, program.rule, extra))
}

/// The vocabulary over so many columns, all of them named, with the terms that a procedure compares
/// over the first of them.
fn ends_of(
    alloc: Global,
    program: &Program,
    p: &Proc,
    fewer: u32,
    columns: u32,
) -> Result<Vocabulary, AllocError>
    requires fit { IsProcFit program.now p.now }
    requires fewer { fewer ≤ columns }
    ensures { IfOk result
        (λ voc. voc ≡ plain_vocabulary program.now columns
        (terms_below fewer (harvest_of p.now.body))) }
{
    let harvested = body_harvest(alloc, p.body.as_slice())?;
    let terms = terms_below(alloc, fewer, harvested)?;
    plain_vocabulary(alloc, program, columns, terms)
}

/// The vocabulary at the entry of a procedure: the globals and the parameters, with the terms over
/// these.
pub fn entry(alloc: Global, program: &Program, proc: u32) -> Result<Vocabulary, AllocError>
    requires formed { IsWellFormed program.now }
    requires there { proc < length program.now.procs }
    ensures { (p : Procedure) → IsProcOf program.now proc p
        → IfOk result (λ voc. voc ≡ entry_of program.now p) }
{
    entry_of(alloc, program, &program.procs.as_slice()[proc as usize])
}

#[tactic(auto, unfolding(crate::specs::Ends::entry_of))]
fn entry_of(alloc: Global, program: &Program, p: &Proc) -> Result<Vocabulary, AllocError>
    requires globals { length program.now.globals ≤ 16 }
    requires fit { IsProcFit program.now p.now }
    ensures { IfOk result (λ voc. voc ≡ entry_of program.now p.now) }
{
    let columns = entry_width(program, p);
    ends_of(alloc, program, p, columns, columns)
}

/// The vocabulary of pairs of an entry and an exit of a procedure: the columns of the entry and
/// then those of the exit, with the terms over those of the entry.
pub fn pair(alloc: Global, program: &Program, proc: u32) -> Result<Vocabulary, AllocError>
    requires formed { IsWellFormed program.now }
    requires there { proc < length program.now.procs }
    ensures { (p : Procedure) → IsProcOf program.now proc p
        → IfOk result (λ voc. voc ≡ pair_of program.now p) }
{
    pair_of(alloc, program, &program.procs.as_slice()[proc as usize])
}

#[tactic(auto, unfolding(crate::specs::Ends::pair_of))]
fn pair_of(alloc: Global, program: &Program, p: &Proc) -> Result<Vocabulary, AllocError>
    requires globals { length program.now.globals ≤ 16 }
    requires fit { IsProcFit program.now p.now }
    ensures { IfOk result (λ voc. voc ≡ pair_of program.now p.now) }
{
    let entry = entry_width(program, p);
    let columns = entry + exit_width(program, p);
    ends_of(alloc, program, p, entry, columns)
}

/// The vocabulary at the exit of a procedure, once all else is out of sight: the globals and the
/// returned value, if there is one, with the terms over the globals.
pub fn exit(alloc: Global, program: &Program, proc: u32) -> Result<Vocabulary, AllocError>
    requires formed { IsWellFormed program.now }
    requires there { proc < length program.now.procs }
    ensures { (p : Procedure) → IsProcOf program.now proc p
        → IfOk result (λ voc. voc ≡ exit_of program.now p) }
{
    exit_of(alloc, program, &program.procs.as_slice()[proc as usize])
}

#[tactic(auto, unfolding(crate::specs::Ends::exit_of))]
fn exit_of(alloc: Global, program: &Program, p: &Proc) -> Result<Vocabulary, AllocError>
    requires globals { length program.now.globals ≤ 16 }
    requires fit { IsProcFit program.now p.now }
    ensures { IfOk result (λ voc. voc ≡ exit_of program.now p.now) }
{
    let globals = program.globals.len() as u32;
    let columns = exit_width(program, p);
    ends_of(alloc, program, p, globals, columns)
}

/// The vocabulary of where a program starts: no columns and no terms.
#[tactic(auto, unfolding(crate::specs::Ends::start_of))]
pub fn start(alloc: Global, program: &Program) -> Result<Vocabulary, AllocError>
    ensures { IfOk result (λ voc. voc ≡ start_of program.now) }
{
    plain_vocabulary(alloc, program, 0, Items::new(alloc))
}

/// The columns at the entry of a procedure.
fn entry_width(program: &Program, p: &Proc) -> u32
    requires globals { length program.now.globals ≤ 16 }
    requires params { p.now.params ≤ 8 }
    ensures { result ≡ entry_width program.now p.now }
{
    program.globals.len() as u32 + p.params
}

/// The columns at its exit.
fn exit_width(program: &Program, p: &Proc) -> u32
    requires { length program.now.globals ≤ 16 }
    ensures { result ≡ exit_width program.now p.now }
{
    let value = if p.returns { 1 } else { 0 };
    program.globals.len() as u32 + value
}
