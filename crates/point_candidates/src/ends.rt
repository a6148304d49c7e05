ghost use Rattle.std.specs.Prelude.{◌≡◌, ◌+◌, ◌≤◌, length};
ghost use Rattle.syntax_tree.specs.WellFormed.{width_of, IsProcFit};
ghost use Rattle.vocabularies.specs.Ends.{entry_width};
ghost use Rattle.leaf_cases.specs.Conditions.{exits_of};

use linear_terms::{Col, Poly, TermError};
use std::alloc::Global;
use syntax_tree::{Proc, Program};

/// How many columns there are in a procedure's states.
pub fn state_columns(program: &Program, p: &Proc) -> u32
    requires globals { length program.now.globals ≤ 16 }
    requires fit { IsProcFit program.now p.now }
    ensures { result ≡ width_of program.now p.now }
{
    (program.globals.len() + p.columns.len() + 1) as u32
}

/// How many there are at its entry.
pub fn entry_columns(program: &Program, p: &Proc) -> u32
    requires globals { length program.now.globals ≤ 16 }
    requires fit { IsProcFit program.now p.now }
    ensures { result ≡ entry_width program.now p.now }
{
    program.globals.len() as u32 + p.params
}

/// How many there are at its entry, and behind them at its exit.
pub fn pair_columns(program: &Program, p: &Proc) -> u32
    requires globals { length program.now.globals ≤ 16 }
    requires fit { IsProcFit program.now p.now }
    ensures { result ≡ entry_width program.now p.now + exits_of program.now p.now }
{
    let value = if p.returns { 1 } else { 0 };
    entry_columns(program, p) + program.globals.len() as u32 + value
}

/// The polynomial of a column.
pub(crate) fn column(alloc: Global, number: u32) -> Result<Poly, TermError> {
    Poly::column(alloc, Col::At(number))
}

/// What stands for a column that cannot be read: an auxiliary of the same number.
pub(crate) fn unread(alloc: Global, number: u32) -> Result<Poly, TermError> {
    Poly::column(alloc, Col::Aux(number))
}

/// The sum of two numbers of columns. There are few.
pub(crate) fn behind(first: u32, second: u32) -> u32 {
    first.saturating_add(second)
}
