ghost use Rattle.std.specs.Prelude.{◌≡◌, ◌<◌, length, IfOk};
ghost use Rattle.std.specs.List.{range_with_len};
ghost use Rattle.syntax_tree.specs.WellFormed.{IsWellFormed};
ghost use Rattle.syntax_tree.specs.declared.program.Proc.{Proc as Procedure};
ghost use Rattle.vocabularies.specs.Procs.{IsProcOf};
ghost use Rattle.leaf_cases.specs.Conditions.{columns_at};
ghost use Rattle.proc_summary.specs.Summary.{ends_of, exit_places};

use items::Items;
use std::alloc::{AllocError, Global};
use syntax_tree::Program;

/// How many columns the states of a procedure have.
pub(crate) fn columns_of(program: &Program, proc: u32) -> u32
    requires formed { IsWellFormed program.now }
    requires procedure { proc < length program.now.procs }
    ensures { result ≡ columns_at program.now proc }
{
    let p = &program.procs.as_slice()[proc as usize];
    (program.globals.len() + p.columns.len() + 1) as u32
}

/// The columns that are told at the exit of a procedure: the globals, and the returned value if
/// there is one.
pub(crate) fn exit_places(
    alloc: Global,
    program: &Program,
    proc: u32,
) -> Result<Items<u32>, AllocError>
    requires formed { IsWellFormed program.now }
    requires procedure { proc < length program.now.procs }
    ensures { (p : Procedure) → IsProcOf program.now proc p
        → IfOk result (λ places. places ≡ exit_places (ends_of program.now p)) }
{
    let mut places = first_columns(alloc, program.globals.len() as u32)?;
    if program.procs.as_slice()[proc as usize].returns {
        places.push(columns_of(program, proc) - 1)?;
    }
    Ok(places)
}

/// The numbers of the first so many columns.
fn first_columns(alloc: Global, count: u32) -> Result<Items<u32>, AllocError>
    ensures { IfOk result (λ numbers. numbers ≡ range_with_len 0 count) }
{
    let mut numbers = Items::new(alloc);
    for number in 0..count {
        numbers.push(number)?;
    }
    Ok(numbers)
}
